//! Packets of virtual characters.
use super::script::{H, HH, Row, Step, W, assert_follows};
use pixel_round::Scale;

// At h = 3 and hh = 2 with w = 3, where a character of 3 units is virtual: w is 0 in its packet,
// after it all is as before, and over the character hh grows by 2 dots, 3 units being one and a
// half.
static ONE_PACKET: [Row; 6] = [
    (Step::W(3, 2), Ok(None), &[(H, 3), (W, 3), (HH, 2)]),
    (Step::Enter, Ok(None), &[(H, 3), (W, 0), (HH, 2)]),
    (Step::W0(2), Ok(None), &[(H, 3), (W, 0), (HH, 2)]),
    (Step::W(40, 2), Ok(None), &[(H, 43), (W, 40), (HH, 22)]),
    (Step::Leave, Ok(None), &[(H, 3), (W, 3), (HH, 2)]),
    (Step::Advance(3), Ok(None), &[(H, 6), (W, 3), (HH, 4)]),
];

#[test]
fn a_packet_gives_back_the_place(rt: HostRuntime) -> Result<(), Scale> {
    assert_follows(&rt, rt.alloc(), &ONE_PACKET)
}
