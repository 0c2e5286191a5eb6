ghost use Rattle.std.specs.Prelude.{◌≡◌, ◌+◌, ◌≤◌};
ghost use Rattle.guest_base.specs.Counts.{raised_by};
ghost use Rattle.guest_base.specs.Failing.{fails_at};
ghost use Rattle.guest_io.specs.Faults.{faults_after};

/// Which calls of an object in memory fail, with the calls made and the faults so far.
#[derive(Debug, Drop)]
pub struct NumberedCalls {
    failing: Vec<u64>,
    made: u64,
    faults: u64,
}

impl NumberedCalls {
    /// No call was made; those with these numbers, counted from 1, are to fail.
    pub fn new(failing: Vec<u64>) -> NumberedCalls
        ensures failing { result.failing.items ≡ failing.items }
        ensures made { result.made ≡ 0 }
        ensures faults { result.faults ≡ 0 }
    {
        NumberedCalls {
            failing,
            made: 0,
            faults: 0,
        }
    }

    /// Counts one more call, and a fault where it is to fail, and tells whether it is.
    pub fn count(&mut self) -> bool
        ensures fails { result ≡ fails_at self.old.failing.items (self.old.made + 1) }
        ensures failing { self.new.failing.items ≡ self.old.failing.items }
        ensures made { self.new.made ≡ raised_by 1 self.old.made }
        ensures faults { self.new.faults ≡ faults_after result self.old.faults }
        ensures faults_kept { self.old.faults ≤ self.new.faults }
    {
        let fails = is_named(self.failing.as_slice(), self.made);
        self.made = self.made.saturating_add(1);
        if fails {
            self.faults = self.faults.saturating_add(1);
        }
        fails
    }
}

/// Whether the call after `made` others is one of those numbered.
fn is_named(failing: &[u64], made: u64) -> bool
    ensures { result ≡ fails_at failing.now (made + 1) }
{
    failing
        .iter()
        .any(|number| u128::from(*number) == u128::from(made) + 1)
}
