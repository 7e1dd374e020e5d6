ghost use Rattle.std.specs.Prelude.{◌≡◌, true, ◌≤◌, ◌<◌, [], ◌∷◌, map, length, get_or, drop, position, nat_eq, MatchOption};
ghost use Rattle.std.specs.Cmp.Lexicographic.{pointwise};
ghost use Rattle.std.proofs.lemmas.List.Edits.{sets};
ghost use Rattle.names.specs.Case.{fold, capital, cased};
ghost use Rattle.names.specs.Names.{names_of, name_at, short, goes_on, middles_of, first_form, read_name};
ghost use Rattle.names.specs.Naming.{first_value, place_for, value_at};
ghost use Rattle.names.specs.Rows.{form_of, short_place};

// The tables of names: seven weekdays, twelve months, the two halves of the day.
#[derive(Clone, Copy)]
pub enum Names {
    Weekdays,
    Months,
    Halves,
}

// How a name is written: as it stands, in small letters, in capitals.
#[derive(Clone, Copy)]
pub enum Case {
    AsIs,
    Small,
    Capital,
}

// The form in which a name was met.
#[derive(Clone, Copy, PartialEq, Eq)]
pub enum NameForm {
    Full,
    Middle,
    Short,
}

// A name that was read: its place in the table, counted from 0, how many bytes of the text it takes, and its form.
#[derive(Clone, Copy)]
pub struct NameRead {
    pub index: usize,
    pub length: usize,
    pub form: NameForm,
}

static WEEKDAYS: [&[u8]; 7] = [
    b"Monday",
    b"Tuesday",
    b"Wednesday",
    b"Thursday",
    b"Friday",
    b"Saturday",
    b"Sunday",
];

static MONTHS: [&[u8]; 12] = [
    b"January",
    b"February",
    b"March",
    b"April",
    b"May",
    b"June",
    b"July",
    b"August",
    b"September",
    b"October",
    b"November",
    b"December",
];

static HALVES: [&[u8]; 2] = [b"AM", b"PM"];

// The short forms, as they are compared with folded text.
static WEEKDAY_SHORTS: [[u8; 3]; 7] = [
    *b"mon", *b"tue", *b"wed", *b"thu", *b"fri", *b"sat", *b"sun",
];

static MONTH_SHORTS: [[u8; 3]; 12] = [
    *b"jan", *b"feb", *b"mar", *b"apr", *b"may", *b"jun", *b"jul", *b"aug", *b"sep", *b"oct",
    *b"nov", *b"dec",
];

// Two letters, and a blank.
static HALF_SHORTS: [[u8; 3]; 2] = [*b"am ", *b"pm "];

// A middle form: its letters, and the place of its name.
#[derive(Clone, Copy)]
struct Middle {
    letters: &'static [u8],
    index: usize,
}

// The middle forms, the longest first.
static WEEKDAY_MIDDLES: [Middle; 3] = [
    Middle {
        letters: b"Thurs",
        index: 3,
    },
    Middle {
        letters: b"Tues",
        index: 1,
    },
    Middle {
        letters: b"Thur",
        index: 3,
    },
];

static MONTH_MIDDLES: [Middle; 1] = [Middle {
    letters: b"Sept",
    index: 8,
}];

// A capital as its small letter.
pub fn fold(b: u8) -> u8
    ensures { result ≡ fold b }
{
    b.to_ascii_lowercase()
}

// A small letter as its capital.
fn capital(b: u8) -> u8
    ensures { result ≡ capital b }
{
    b.to_ascii_uppercase()
}

fn first_value(t: Names) -> u32
    ensures { (result ≡ first_value t) × (result ≤ 1) }
{
    match t {
        Names::Weekdays => 1,
        Names::Months => 1,
        Names::Halves => 0,
    }
}

// The place of a value in its table; 0 below the first value.
pub fn place_for(t: Names, value: u32) -> usize
    ensures { result ≡ place_for t value }
{
    value.saturating_sub(first_value(t)) as usize
}

// The value at a place.
pub fn value_at(t: Names, i: u8) -> u32
    ensures { result ≡ value_at t i }
{
    first_value(t) + i as u32
}

// The names of a table. It is lent, so that it is laid out once and not copied at each use.
fn names_of(t: Names) -> &'static [&'static [u8]]
    ensures { map (λ n. n.now) result.now ≡ names_of t }
{
    match t {
        Names::Weekdays => &WEEKDAYS,
        Names::Months => &MONTHS,
        Names::Halves => &HALVES,
    }
}

// A name; none past the table's end.
fn name_at(t: Names, i: usize) -> &'static [u8]
    ensures { result.now ≡ name_at t i }
{
    let names = names_of(t);
    if i < names.len() { names[i] } else { b"" }
}

// The length of a name; 0 past the table's end.
pub fn name_length(t: Names, i: usize) -> usize
    ensures { result ≡ length (name_at t i) }
{
    name_at(t, i).len()
}

fn cased(case: Case, b: u8) -> u8
    ensures { result ∷ [] ≡ cased case (b ∷ []) }
{
    match case {
        Case::AsIs => b,
        Case::Small => fold(b),
        Case::Capital => capital(b),
    }
}

// Copies the first bytes of `name` over `out`, as many as both have, in a letter case.
fn overlay(out: &mut [u8], name: &[u8], case: Case)
    ensures { out.new ≡ sets out.old 0 (cased case name.now) }
{
    for i in 0..out.len().min(name.len()) {
        out[i] = cased(case, name[i]);
    }
}

// Copies a name's first bytes over `out`, as many as both have, in a letter case: a slice of three bytes takes the short form.
// Says how long the name is.
pub fn write_name(out: &mut [u8], t: Names, i: usize, case: Case) -> usize
    ensures value { result ≡ length (name_at t i) }
    ensures out_after { out.new ≡ sets out.old 0 (cased case (name_at t i)) }
{
    let name = name_at(t, i);
    overlay(out, name, case);
    name.len()
}

// The text from an offset on, none where it has ended before.
fn text_from(s: &[u8], at: usize) -> &[u8]
    ensures { result.now ≡ drop at s.now }
{
    &s[at.min(s.len())..]
}

// Whether the text goes on with `name`.
fn goes_on(name: &[u8], s: &[u8]) -> bool
    ensures { result ≡ goes_on name.now s.now }
{
    name.len() <= s.len() && s[..name.len()].eq_ignore_ascii_case(name)
}

// ---- The short forms: every form of a name begins with its short one, and no text goes on with two of these.

// A byte of the text, folded; 0 past its end.
fn folded(s: &[u8], i: usize) -> u8
    ensures { result ≡ fold (get_or s.now i 0) }
{
    if i < s.len() { fold(s[i]) } else { 0 }
}

// The place of the first short form that has these bytes, if one has.
fn find(shorts: &[[u8; 3]], key: [u8; 3]) -> Option<usize>
    ensures { result ≡ position (λ r. pointwise nat_eq r key) shorts.now }
{
    shorts.iter().position(|short| *short == key)
}

// The place of the name whose short form the text goes on with, if it goes on with one.
fn short_place(t: Names, s: &[u8]) -> Option<usize>
    ensures { MatchOption result (short_place t s.now ≡ length (names_of t))
        (λ i. (short_place t s.now ≡ i) × (i < length (names_of t))) }
{
    let a = folded(s, 0);
    let b = folded(s, 1);
    match t {
        Names::Weekdays => find(&WEEKDAY_SHORTS, [a, b, folded(s, 2)]),
        Names::Months => find(&MONTH_SHORTS, [a, b, folded(s, 2)]),
        Names::Halves => find(&HALF_SHORTS, [a, b, b' ']),
    }
}

// ---- The other forms

// Whether the text goes on with the name at place `i`, if it does with its short form: only the letters after that are compared.
fn in_full(t: Names, i: usize, s: &[u8]) -> bool
    requires { goes_on (short (name_at t i)) s.now ≡ true }
    ensures { result ≡ goes_on (name_at t i) s.now }
{
    goes_on(text_from(name_at(t, i), 3), text_from(s, 3))
}

// The middle forms of a table, the longest first.
fn middles_of(t: Names) -> &'static [Middle]
    ensures { map form_of result.now ≡ middles_of t }
{
    match t {
        Names::Weekdays => &WEEKDAY_MIDDLES,
        Names::Months => &MONTH_MIDDLES,
        Names::Halves => &[],
    }
}

// The first of some middle forms that the text goes on with.
fn first_middle(middles: &[Middle], s: &[u8]) -> Option<NameRead>
    ensures { result ≡ first_form (map form_of middles.now) s.now }
{
    for m in middles {
        if goes_on(m.letters, s) {
            return Some(NameRead {
                index: m.index,
                length: m.letters.len(),
                form: NameForm::Middle,
            });
        }
    }
    None
}

// The name that the text goes on with at `at`: its place by the short form, then the full name, then a middle form.
pub fn read_name(t: Names, s: &[u8], at: usize) -> Option<NameRead>
    ensures { result ≡ read_name t (drop at s.now) }
{
    let s = text_from(s, at);
    let Some(index) = short_place(t, s) else {
        return None;
    };
    if in_full(t, index, s) {
        return Some(NameRead {
            index,
            length: name_length(t, index),
            form: NameForm::Full,
        });
    }
    first_middle(middles_of(t), s).or(Some(NameRead {
        index,
        length: 3,
        form: NameForm::Short,
    }))
}
