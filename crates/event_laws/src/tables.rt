//! What a table of unaccepted units leaves pending.
ghost use Rattle.std.specs.Prelude.{ℕ, List, Some, true, ◌≡◌};
ghost use Rattle.guest_base.specs.declared.memory.PageState.TheVariants.{Pending};
ghost use Rattle.event_core.specs.declared.boot.Descriptor.{Descriptor as DescriptorValue};
ghost use Rattle.event_core.specs.Table.{Bits, FitsTable, marks_page};
ghost use Rattle.event_core.specs.Given.{first_by};
ghost use Rattle.event_core.specs.Units.{bit_of};
ghost use Rattle.event_core.specs.MemoryRows.{is_pending};
ghost use Rattle.event_laws.specs.Marked.{page_of_unit};

/// Each page of a unit whose bit is set in a table that fits the map is pending at first.
pub fn set_unit_is_pending()
    ensures { (map : List DescriptorValue) (table : Bits) (unit page : ℕ) → FitsTable map table →
        bit_of table.bits unit ≡ true → page_of_unit table unit page ≡ true →
        first_by map (Some table) page ≡ Some Pending }
{}

/// Exactly the pages that a table marks are pending at first, where the table fits the map.
pub fn pending_as_marked()
    ensures { (map : List DescriptorValue) (table : Bits) (page : ℕ) → FitsTable map table →
        is_pending (first_by map (Some table) page) ≡ marks_page table page }
{}
