//! Sets of lanes worked out by hand.
use gang_types::Mask;

#[test]
fn masks_are_sets_of_lanes(rt: HostRuntime) {
    let odd = Mask::all::<4>().where_true([0, 1, 0, 9]);
    assert_eq!(&rt; odd.word::<4>(), 0b1010);
    assert_eq!(&rt; odd.count::<4>(), 2);
    assert_eq!(&rt; odd.lowest::<4>(), 1);
    assert_eq!(&rt; odd.has::<4>(3), true);
    assert_eq!(&rt; odd.has::<4>(4), false);
    assert_eq!(&rt;
        Mask::all::<16>().without(Mask::only::<16>(15)).word::<16>(),
        0x7fff
    );
    assert_eq!(&rt;
        odd.and(Mask::only::<4>(3)).with::<4>(0).word::<4>(),
        0b1001
    );
    assert_eq!(&rt; odd.or(Mask::only::<4>(2)).word::<4>(), 0b1110);
    assert_eq!(&rt; Mask::none().is_empty::<8>(), true);
    assert_eq!(&rt; Mask::from_word::<8>(0x1ff).word::<8>(), 0xff);
}
