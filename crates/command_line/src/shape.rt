//! The shape of arguments.
ghost use Rattle.std.specs.Prelude.{◌≡◌, ◌==◌, option_map, position, string_bytes};
ghost use Rattle.std.specs.List.{list_all};
ghost use Rattle.std.specs.Char.{is_ascii_digit};
ghost use Rattle.command_line.specs.Line.{after_hyphens as after_two, is_value as is_value_text};
ghost use Rattle.command_line.specs.Shaped.{is_option_rest as is_rest};
ghost use Rattle.command_line.specs.Shaped.{is_shaped as is_shaped_argument};

fn are_digits(text: &[u8]) -> bool
    ensures { result ≡ list_all is_ascii_digit text.now }
{
    text.iter().all(|byte| byte.is_ascii_digit())
}

/// Whether the text is one to ten decimal digits.
pub fn is_value(text: &[u8]) -> bool
    ensures { result ≡ is_value_text text.now }
{
    if text.is_empty() || text.len() > 10 {
        return false;
    }
    are_digits(text)
}

fn after_hyphens<'a>(argument: &'a [u8]) -> Option<&'a [u8]>
    ensures { option_map (λ s. s.now) result ≡ after_two argument.now }
{
    match argument {
        [b'-', b'-', rest @ ..] => Some(rest),
        _ => None,
    }
}

fn equals_sign(rest: &[u8]) -> Option<usize>
    ensures { result ≡ position (λ x. x == 61) rest.now }
{
    rest.iter().position(|byte| *byte == b'=')
}

fn is_option_rest(rest: &[u8]) -> bool
    ensures { result ≡ is_rest rest.now }
{
    if rest.is_empty() {
        return false;
    }
    match equals_sign(rest) {
        Some(at) => at < rest.len() && is_value(&rest[at + 1..]),
        None => true,
    }
}

/// Whether the argument is a value, `--name` or `--name=value`.
pub fn is_shaped(argument: &[u8]) -> bool
    ensures { result ≡ is_shaped_argument argument.now }
{
    is_value(argument)
        || match after_hyphens(argument) {
            Some(rest) => is_option_rest(rest),
            None => false,
        }
}

/// Whether each argument is.
pub fn are_shaped(arguments: &[String]) -> bool
    ensures { result
        ≡ list_all (λ argument. is_shaped_argument (string_bytes argument)) arguments.now }
{
    arguments
        .iter()
        .all(|argument| is_shaped(argument.as_bytes()))
}
