//! The three forms of a character packet.
ghost use Rattle.std.specs.Prelude.{◌≡◌, ◌<◌, ◌≤◌};
ghost use Rattle.pk_packets.specs.Items.{code_size, count_size, given_by_opcode};
ghost use Rattle.pk_packets.specs.Packets.{escapement_size, side_size};

/// How many bytes the fields of a form have: the length, the code, the width and the escapements
/// together, and each of the sides and offsets.
#[derive(Clone, Copy)]
pub struct Form {
    pub count: usize,
    pub code: usize,
    pub escapements: usize,
    pub side: usize,
}

const SHORT: Form = Form {
    count: 1,
    code: 1,
    escapements: 4,
    side: 1,
};

const EXTENDED: Form = Form {
    count: 2,
    code: 1,
    escapements: 5,
    side: 2,
};

const LONG: Form = Form {
    count: 4,
    code: 4,
    escapements: 12,
    side: 4,
};

impl Form {
    /// The form that the low three bits of a packet's flag choose.
    pub fn of(flag: u8) -> Form
        requires packet { flag < 240 }
        ensures count { result.count ≡ count_size flag }
        ensures code { result.code ≡ code_size flag }
        ensures escapements { result.escapements ≡ escapement_size flag }
        ensures side { result.side ≡ side_size flag }
    {
        match flag % 8 {
            0..=3 => SHORT,
            4..=6 => EXTENDED,
            _ => LONG,
        }
    }
}

/// What a packet's flag adds to its length.
pub fn high_bits(flag: u8) -> usize
    requires { flag < 240 }
    ensures bits { result ≡ given_by_opcode flag }
    ensures few { result ≤ 196608 }
{
    let low = usize::from(flag % 4);
    match flag % 8 {
        0..=3 => low * 256,
        4..=6 => low * 65536,
        _ => 0,
    }
}
