// Taking numbers, and giving them back.
ghost use Rattle.std.specs.Prelude.{◌≡◌, ℕ, ◌+◌, ◌-◌};
ghost use Rattle.objects.specs.Building.{after_number, taken};

use super::{NumberToken, Numbers};

impl Numbers {
    // The numbers after `last`.
    pub fn after(last: u32) -> Numbers
        ensures { result ≡ after_number last }
    {
        Numbers { last }
    }

    // The last number taken.
    pub fn last(&self) -> u32
        ensures { result ≡ self.now.last }
    {
        self.last
    }

    // The next number, unless none is left.
    pub fn take(&mut self) -> Option<NumberToken>
        ensures { (result, self.new) ≡ taken self.old }
    {
        let number = self.last.checked_add(1)?;
        *self = Numbers::after(number);
        Some(NumberToken { number })
    }
}

impl NumberToken {
    // Frees the number: it is the next to be taken again.
    pub fn withdraw(self, numbers: &mut Numbers)
        ensures { numbers.new ≡ after_number (self.number - 1) }
    {
        let NumberToken { number } = self;
        numbers.last = number.saturating_sub(1);
    }
}
