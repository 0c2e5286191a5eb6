//! The boots of guests whose tables an earlier kernel handed on.
ghost use Rattle.std.specs.Prelude.{None, Some, [], ◌≡◌};
ghost use Rattle.event_core.specs.Boot.{BootRight};
ghost use Rattle.event_core.specs.Table.{FitsTable, bad_unit};
ghost use Rattle.event_rows.specs.Giving.{giving_guest};
ghost use Rattle.event_rows.specs.GivenMeanwhile.{meanwhile_guest};
ghost use Rattle.event_rows.specs.SmallMap.{small_map};
ghost use Rattle.event_rows.specs.SmallUnits.{small_table, small_unit_guest};
ghost use Rattle.event_rows.specs.Tables.{giving_map, giving_table, meanwhile_map, meanwhile_table, edge_table, unfit_table};

/// The small guest with units of 4 KiB is what boot makes of its map and its table.
pub fn small_unit_guest_is_booted()
    ensures { BootRight small_map [] (Some small_table) 0 1 1 small_unit_guest }
{}

/// The guest of a giveback is what boot makes of unaccepted memory and a table whose bits are all clear.
pub fn giving_guest_is_booted()
    ensures { BootRight giving_map [] (Some giving_table) 0 1 1 giving_guest }
{}

/// The guest of a giveback within a claim is what boot makes of unaccepted memory of which the first two units are unaccepted.
pub fn meanwhile_guest_is_booted()
    ensures { BootRight meanwhile_map [] (Some meanwhile_table) 0 1 2 meanwhile_guest }
{}

/// The table of units of 4 KiB fits the small map.
pub fn small_table_fits()
    ensures { FitsTable small_map small_table }
{}

/// A unit of accepted memory may have a clear bit in a table, but not a set one.
pub fn unit_outside_is_bad()
    ensures { (bad_unit small_map edge_table ≡ None) × (bad_unit small_map unfit_table ≡ Some 0) }
{}
