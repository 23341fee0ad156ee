ghost use Rattle.std.specs.Prelude.{◌≡◌, ℕ, ◌+◌, ◌/◌, ◌^◌, ◌<◌, ◌≤◌, [], ◌∷◌, ◌++◌, length, decimal, unsigned_abs, IfSome};
ghost use Rattle.wc_model.specs.Instrument.Answers.{last_digits, fraction_text, value_text, right_justified, weight_text};

use std::marker::Model;

/// Ten bytes that are filled from their end. What is not filled is spaces.
#[derive(Drop)]
struct WeightField {
    bytes: [u8; 10],
    at: usize,
}

/// What precedes the last n digits of a number.
fn digits_before(number: u32, decimals: u32) -> u32
    requires { decimals ≤ 3 }
    ensures { result ≡ number / 10 ^ decimals }
{
    match decimals {
        0 => number,
        1 => number / 10,
        2 => number / 100,
        _ => number / 1000,
    }
}

impl Model for WeightField {
    ghost use Rattle.std.specs.Prelude.{ℕ, List};

    ghost Value = { List ℕ };

    ghost use Rattle.wc_sma.specs.Fields.{request_view, IsFilled};

    ghost view = { request_view };

    ghost invariant = { IsFilled };
}

impl WeightField {
    /// An empty field.
    fn new() -> WeightField
        ensures { result ≡ [] }
    {
        WeightField {
            bytes: [b' '; 10],
            at: 10,
        }
    }

    /// Puts a byte before the text.
    fn put(&mut self, byte: u8)
        requires { length self.old < 10 }
        ensures { self.new ≡ byte ∷ self.old }
    {
        self.at -= 1;
        self.bytes[self.at] = byte;
    }

    /// Puts the last n digits of a number before the text, zeros included.
    fn put_last_digits(&mut self, count: u32, number: u32)
        requires { length self.old + count ≤ 10 }
        ensures { self.new ≡ last_digits count number ++ self.old }
    {
        let mut left = count;
        let mut rest = number;
        while left > 0 {
            self.put(b'0' + (rest % 10) as u8);
            rest /= 10;
            left -= 1;
        }
    }

    /// Puts a number before the text.
    fn put_decimal(&mut self, number: u32)
        requires { length (decimal number) + length self.old ≤ 10 }
        ensures { self.new ≡ decimal number ++ self.old }
    {
        let mut rest = number;
        while rest >= 10 {
            self.put(b'0' + (rest % 10) as u8);
            rest /= 10;
        }
        self.put(b'0' + rest as u8);
    }

    /// Puts a point and n digits before the text, or nothing for none.
    fn put_fraction(&mut self, decimals: u32, number: u32)
        requires { length self.old + decimals < 10 }
        ensures { self.new ≡ fraction_text decimals number ++ self.old }
    {
        if decimals > 0 {
            self.put_last_digits(decimals, number);
            self.put(b'.');
        }
    }

    /// Puts a value into an empty field.
    fn put_value(&mut self, decimals: u32, value: i32)
        requires empty { self.old ≡ [] }
        requires few { decimals ≤ 3 }
        requires short { unsigned_abs value < 10000000 }
        ensures { self.new ≡ value_text decimals value }
    {
        let magnitude = value.unsigned_abs();
        self.put_fraction(decimals, magnitude);
        self.put_decimal(digits_before(magnitude, decimals));
        if value < 0 {
            self.put(b'-');
        }
    }

    /// The ten bytes.
    fn bytes(self) -> [u8; 10]
        ensures { result ≡ right_justified self }
    {
        self.bytes
    }
}

/// A weight that has less than eight digits in ten bytes, and ten `-` without a weight.
pub(crate) fn weight_field(decimals: u32, weight: Option<i32>) -> [u8; 10]
    requires { decimals ≤ 3 }
    ensures { IfSome weight (λ value. unsigned_abs value < 10000000)
        → result ≡ weight_text decimals weight }
{
    match weight {
        Some(value) if value.unsigned_abs() < 10_000_000 => {
            let mut field = WeightField::new();
            field.put_value(decimals, value);
            field.bytes()
        }
        _ => [b'-'; 10],
    }
}
