ghost use Rattle.std.specs.Prelude.{◌≡◌, ◌<◌, option_and_then};
ghost use Rattle.std.specs.Char.{is_ascii_digit};
ghost use Rattle.std.specs.List.{list_all};
ghost use Rattle.job_words.specs.Arguments.{is_between, is_power_between, numeral_of, passing};

const MOST_DIGITS: usize = 20;

/// The number that 1 to 20 decimal digits write, where it fits. Leading zeros are fine.
pub(crate) fn number(text: &str) -> Option<u64>
    ensures { result ≡ numeral_of text.now }
{
    if text.len() > MOST_DIGITS || !all_digits(text) {
        return None;
    }
    text.parse::<u64>().ok()
}

fn all_digits(text: &str) -> bool
    ensures { result ≡ list_all is_ascii_digit text.now }
{
    text.as_bytes().iter().all(|byte| byte.is_ascii_digit())
}

/// The number of the text, where it is from `least` to `most`.
pub(crate) fn number_between(text: &str, least: u32, most: u32) -> Option<u32>
    ensures { result ≡ option_and_then (passing (is_between least most)) (numeral_of text.now) }
{
    match number(text) {
        Some(n) if u64::from(least) <= n && n <= u64::from(most) => Some(n as u32),
        _ => None,
    }
}

/// The number of the text, where it is a power of two from `least` to `most`.
pub(crate) fn power_between(text: &str, least: u32, most: u32) -> Option<u32>
    ensures { result
        ≡ option_and_then (passing (is_power_between least most)) (numeral_of text.now) }
{
    match number(text) {
        Some(n) if n.is_power_of_two() && u64::from(least) <= n && n <= u64::from(most) => {
            Some(n as u32)
        }
        _ => None,
    }
}
