//! Numbers among the words.

ghost use Rattle.std.specs.Prelude.{◌≡◌, true};
ghost use Rattle.command_line.specs.Words.{is_count, number_of};

/// Whether a word is a number: at most nine decimal digits, without a leading zero unless it is `0`.
pub(crate) fn is_count(word: &[u8]) -> bool
    ensures { result ≡ is_count word.now }
{
    let Some((first, rest)) = word.split_first() else {
        return false;
    };
    if *first == b'0' {
        return rest.is_empty();
    }
    word.len() <= 9 && word.iter().all(|byte| byte.is_ascii_digit())
}

/// The number that digits write.
pub(crate) fn number_of(word: &[u8]) -> u32
    requires { is_count word.now ≡ true }
    ensures { result ≡ number_of word.now }
{
    let mut number = 0;
    let mut rest = word;
    'digits: while let Some((digit, others)) = rest.split_first() {
        number = number * 10 + u32::from(*digit - b'0');
        rest = others;
    }
    number
}
