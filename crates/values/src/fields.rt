// The fields of a moment, in the order in which they are judged.
ghost use Rattle.std.specs.Prelude.{◌≡◌};
ghost use Rattle.values.specs.Moments.{field_number, of_date};

use calendar::DateField;

#[derive(Clone, Copy, PartialEq, Eq)]
pub enum Field {
    Year,
    Month,
    Day,
    Hour,
    Minute,
    Second,
    Offset,
}

impl Field {
    // Its number in a refusal (RULES 3): 1 year, 2 month, 3 day, 4 hour, 5 minute, 6 second, 7 offset.
    #[tactic(auto, unfolding(crate::specs::Moments::field_number))]
    pub fn number(self) -> u32
        ensures { result ≡ field_number self }
    {
        match self {
            Field::Year => 1,
            Field::Month => 2,
            Field::Day => 3,
            Field::Hour => 4,
            Field::Minute => 5,
            Field::Second => 6,
            Field::Offset => 7,
        }
    }
}

impl From<DateField> for Field {
    ghost from_gives = { λ d f. f ≡ of_date d };

    #[tactic(auto, unfolding(crate::specs::Moments::of_date))]
    fn from(field: DateField) -> Field {
        match field {
            DateField::Year => Field::Year,
            DateField::Month => Field::Month,
            DateField::Day => Field::Day,
        }
    }
}
