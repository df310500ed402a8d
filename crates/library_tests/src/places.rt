// Places by colours that no plan of this program has, and lists of steps.

use op_num::OutOfMemory;
use schedule_steps::Step;
use step_orders::{Listed, Runs, list_of, places_in_order};

// Blocks of so many places, the colours of the blocks and of the places, and the places in order.
const PLACES: &[(u32, &[u32], &[u32], &[u32])] = &[
    (
        3,
        &[0, 2, 0],
        &[0, 0, 0, 0, 0, 0, 0],
        &[0, 1, 2, 6, 3, 4, 5],
    ),
    (1, &[4294967295, 0, 7], &[0, 0, 0], &[1, 2, 0]),
    (4, &[0], &[4294967295, 0, 4294967295, 1], &[1, 3, 0, 2]),
];

#[test]
fn places_go_by_colours(rt: HostRuntime) -> Result<(), OutOfMemory> {
    let alloc = rt.alloc();
    for (size, block_colours, colours, want) in PLACES {
        if 0 < *size && colours.len() < 10 {
            let places = places_in_order(alloc, *size, *block_colours, *colours)?;
            assert_eq!(rt; places.as_slice(), *want);
        }
    }
    let runs = Runs::of_places(alloc, 2, &[4294967295, 0], &[0, 4294967295, 1, 1], 2)?;
    assert_eq!(rt; runs.len(), 3);
    if runs.len() == 3 {
        assert_eq!(rt; runs.run(0), [2, 3].as_slice());
        assert_eq!(rt; runs.run(1), [0].as_slice());
        assert_eq!(rt; runs.run(2), [1].as_slice());
    }
    Ok(())
}

#[test]
fn lists_give_their_steps(rt: HostRuntime) -> Result<(), OutOfMemory> {
    let alloc = rt.alloc();
    let joined = [Step::Join { item: 0 }, Step::Join { item: 1 }];
    let steps = list_of(alloc, &mut Listed::new(&joined))?;
    assert_eq!(rt; steps.as_slice(), joined.as_slice());
    Ok(())
}
