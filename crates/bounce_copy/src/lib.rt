//! Copies between a buffer and its place in the bounce-buffer pool.
#![tactic(auto)]

ghost use Rattle.std.specs.Prelude.{◌≡◌, ◌≤◌, ◌+◌, length};
ghost use Rattle.guest_base.specs.Parts.{part_of, with_part};

/// Writes `bytes` into the pool from its byte `at` on, counted from 0, and nothing else.
pub fn part_in(pool: &mut [u8], at: usize, bytes: &[u8])
    requires { at + length bytes.now ≤ length pool.old }
    ensures { pool.new ≡ with_part pool.old at bytes.now }
{
    pool[at..at + bytes.len()].copy_from_slice(bytes);
}

/// Fills `out` with the pool's bytes from its byte `at` on, counted from 0.
pub fn part_out(pool: &[u8], at: usize, out: &mut [u8])
    requires { at + length out.old ≤ length pool.now }
    ensures { out.new ≡ part_of pool.now at (length out.old) }
{
    out.copy_from_slice(&pool[at..at + out.len()]);
}

#[cfg(test)]
mod tests {
    use super::*;

    #[test]
    fn copies_exactly_the_range(rt: HostRuntime) {
        let mut pool = [9; 6];
        part_in(&mut pool, 2, &[1, 2, 3]);
        assert_eq!(rt; pool, [9, 9, 1, 2, 3, 9]);
        let mut out = [0; 2];
        part_out(&pool, 3, &mut out);
        assert_eq!(rt; out, [2, 3]);
    }
}
