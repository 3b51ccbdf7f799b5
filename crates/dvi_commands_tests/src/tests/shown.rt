//! What a command shows, so that two commands can be compared and printed.
use dvi_commands::{Command, CommandFault, Context, FontDef, read_command};

/// A command: its name, its numbers in the order of its fields, then zeros, the first bytes of its
/// text, then zeros, and how long the text is.
#[derive(Clone, Copy, Debug, PartialEq, Eq)]
pub struct Shown {
    pub name: &'static str,
    pub numbers: [i64; 11],
    pub text: [u8; 8],
    pub length: usize,
}

fn name(command: &Command) -> &'static str {
    match command {
        Command::Set(_) => "Set",
        Command::Put(_) => "Put",
        Command::SetRule { .. } => "SetRule",
        Command::PutRule { .. } => "PutRule",
        Command::Nop => "Nop",
        Command::Bop { .. } => "Bop",
        Command::Eop => "Eop",
        Command::Push => "Push",
        Command::Pop => "Pop",
        Command::Right(_) => "Right",
        Command::W0 => "W0",
        Command::W(_) => "W",
        Command::X0 => "X0",
        Command::X(_) => "X",
        Command::Down(_) => "Down",
        Command::Y0 => "Y0",
        Command::Y(_) => "Y",
        Command::Z0 => "Z0",
        Command::Z(_) => "Z",
        Command::Font(_) => "Font",
        Command::Special(_) => "Special",
        Command::Define(_) => "Define",
        Command::Pre { .. } => "Pre",
        Command::Post { .. } => "Post",
        Command::PostPost { .. } => "PostPost",
    }
}

/// The numbers, then zeros.
pub fn padded(few: &[i32]) -> [i64; 11] {
    let mut numbers = [0; 11];
    for place in 0..11 {
        if place < few.len() {
            numbers[place] = i64::from(few[place]);
        }
    }
    numbers
}

fn numbers_of_a_definition(def: &FontDef) -> [i64; 11] {
    let mut numbers = padded(&[def.number, 0, def.size, def.design, i32::from(def.area)]);
    numbers[1] = i64::from(def.check);
    numbers
}

fn numbers_of_a_page(counts: &[i32; 10], back: i32) -> [i64; 11] {
    let mut numbers = padded(counts);
    numbers[10] = i64::from(back);
    numbers
}

fn numbers(command: &Command) -> [i64; 11] {
    match command {
        Command::Set(number)
        | Command::Put(number)
        | Command::Right(number)
        | Command::W(number)
        | Command::X(number)
        | Command::Down(number)
        | Command::Y(number)
        | Command::Z(number)
        | Command::Font(number) => padded(&[*number]),
        Command::SetRule { height, width } | Command::PutRule { height, width } => {
            padded(&[*height, *width])
        }
        Command::Bop { counts, back } => numbers_of_a_page(counts, *back),
        Command::Define(def) => numbers_of_a_definition(def),
        Command::Pre {
            id,
            num,
            den,
            mag,
            ..
        } => padded(&[i32::from(*id), *num, *den, *mag]),
        Command::Post {
            back,
            num,
            den,
            mag,
            tallest,
            widest,
            deepest,
            pages,
        } => padded(&[
            *back,
            *num,
            *den,
            *mag,
            *tallest,
            *widest,
            i32::from(*deepest),
            i32::from(*pages),
        ]),
        Command::PostPost { post, id } => padded(&[*post, i32::from(*id)]),
        _ => [0; 11],
    }
}

fn text<'a>(command: &Command<'a>) -> &'a [u8] {
    match command {
        Command::Special(text) | Command::Pre { text, .. } => *text,
        Command::Define(def) => def.name,
        _ => &[],
    }
}

// The first bytes of a text, then zeros.
fn first_bytes(text: &[u8]) -> [u8; 8] {
    let mut bytes = [0; 8];
    for place in 0..8 {
        if place < text.len() {
            bytes[place] = text[place];
        }
    }
    bytes
}

pub fn show(command: &Command) -> Shown {
    let text = text(command);
    Shown {
        name: name(command),
        numbers: numbers(command),
        text: first_bytes(text),
        length: text.len(),
    }
}

/// What is read at a place, with the place after it. `None` for a place that isn't in the bytes.
pub fn read(
    bytes: &[u8],
    at: usize,
    context: Context,
) -> Option<Result<(Shown, usize), CommandFault>> {
    if at > bytes.len() {
        return None;
    }
    match read_command(bytes, at, context) {
        Ok((command, end)) => Some(Ok((show(&command), end))),
        Err(fault) => Some(Err(fault)),
    }
}

/// The first cut of the bytes that isn't refused as too short: how many bytes are left, and the
/// fault there, if any.
pub fn cut_not_short(bytes: &[u8], context: Context) -> Option<(usize, Option<CommandFault>)> {
    for left in 0..bytes.len() {
        let fault = read_command(&bytes[..left], 0, context).err();
        if fault != Some(CommandFault::Short) {
            return Some((left, fault));
        }
    }
    None
}
