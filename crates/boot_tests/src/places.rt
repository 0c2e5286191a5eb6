use guest_base::Pages;
use guest_boot::place::place_in;

#[test]
fn the_lowest_range_with_room(rt: HostRuntime) {
    let range = |first, count| Pages { first, count };
    let ranges = [range(0, 160), range(0x100, 32_512), range(0x8000, 491_520)];
    assert_eq!(rt; place_in(&ranges, 16_384), Some(range(0x100, 16_384)));
    assert_eq!(rt; place_in(&ranges, 160), Some(range(0, 160)));
    assert_eq!(rt; place_in(&ranges, 491_521), None);
}
