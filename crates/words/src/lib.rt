// Values as 32-bit words for C, and back (RULES 10.3): zone offsets, and the hours, minutes and seconds of a reading.
#![tactic(auto)]

ghost use Rattle.std.specs.Prelude.{◌≡◌};
ghost use Rattle.words.specs.Words.{offset_from, offset_flag, offset_word, flag, number_or0};

// ---- Zone offsets

// An offset: whether it is said, and which it is, in two's complement.
pub fn offset_from(said: u32, word: u32) -> Option<i32>
    ensures { result ≡ offset_from said word }
{
    if said == 0 {
        return None;
    }
    Some(word.cast_signed())
}

// Whether an offset is said, and which it is.
pub fn offset_flag(offset: Option<i32>) -> u32
    ensures { result ≡ offset_flag offset }
{
    u32::from(offset.is_some())
}

pub fn offset_word(offset: Option<i32>) -> u32
    ensures { result ≡ offset_word offset }
{
    match offset {
        None => 0,
        Some(east) => east.cast_unsigned(),
    }
}

// ---- Hours, minutes and seconds

// Whether one is said, and its number, or 0.
pub fn flag(said: Option<u32>) -> u32
    ensures { result ≡ flag said }
{
    u32::from(said.is_some())
}

pub fn number_or_0(said: Option<u32>) -> u32
    ensures { result ≡ number_or0 said }
{
    said.unwrap_or(0)
}
