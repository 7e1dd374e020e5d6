// What a flag chooses: the fill of a number, the case of a name.
ghost use Rattle.std.specs.Prelude.{◌≡◌};
ghost use Rattle.converted.specs.Converted.{fill_by, case_by};

use names::Case;

// The byte that fills a number.
pub fn fill_by(flag: u8, own: u8) -> u8
    ensures { result ≡ fill_by flag own }
{
    match flag {
        b'_' => b' ',
        b'0' => b'0',
        _ => own,
    }
}

// The case of a name.
pub fn case_by(flag: u8, own: Case) -> Case
    ensures { result ≡ case_by flag own }
{
    if flag == b'^' {
        return Case::Capital;
    }
    own
}
