ghost use Rattle.std.specs.Prelude.{◌≡◌, ◌+◌, ◌/◌, ◌%◌, ◌<◌};

/// A date and a time of the day as six numbers, which the calendar and the clock may lack: the year
/// has four digits and each other number two.
#[derive(Clone, Copy)]
pub struct Civil {
    pub year: u16,
    pub month: u8,
    pub day: u8,
    pub hour: u8,
    pub minute: u8,
    pub second: u8,
    ghost year_digits: { year < 10000 },
    ghost month_digits: { month < 100 },
    ghost day_digits: { day < 100 },
}

impl Civil {
    ghost use Rattle.conc_base_law.specs.Calendar.{civil_text};
    ghost use Rattle.conc_time.specs.Fields.{civil};

    /// Their text, `YYYY-MM-DDTHH:MM:SS`.
    #[tactic(auto, unfolding(conc_base_law::specs::Calendar::civil_text))]
    pub fn text(&self) -> [u8; 19]
        ensures { result ≡ civil_text (civil self.now) }
    {
        let (century, year) = ((self.year / 100) as u8, (self.year % 100) as u8);
        [
            tens(century),
            ones(century),
            tens(year),
            ones(year),
            b'-',
            tens(self.month),
            ones(self.month),
            b'-',
            tens(self.day),
            ones(self.day),
            b'T',
            tens(self.hour),
            ones(self.hour),
            b':',
            tens(self.minute),
            ones(self.minute),
            b':',
            tens(self.second),
            ones(self.second),
        ]
    }
}

// The decimal digit of the tens of a number, and that of the ones.
fn tens(n: u8) -> u8
    ensures { result ≡ 48 + n / 10 % 10 }
{
    b'0' + n / 10 % 10
}

fn ones(n: u8) -> u8
    ensures { result ≡ 48 + n % 10 }
{
    b'0' + n % 10
}
