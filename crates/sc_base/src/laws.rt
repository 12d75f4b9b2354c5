//! What is true of all names of gates and of all texts of numbers.
ghost use Rattle.std.specs.Prelude.{◌≡◌, ◌↔◌, ◌<◌, ◌^◌, ◌++◌, ℕ, ℤ, List, Some, decimal};
ghost use Rattle.sc_base.specs.declared.names.GateName.{GateName};
ghost use Rattle.sc_base.specs.GateNames.{gate_text, gate_named, place_of};
ghost use Rattle.sc_base.specs.Numerals.{EndsNumber, WholeFront, IntFront, FixedFront, number_line};

/// Gates with one text are one gate, and so are gates with one place; and a text names the gate that is spelled so.
pub fn gate_names_are_told_apart()
    ensures texts { (m n : GateName) → gate_text m ≡ gate_text n → m ≡ n }
    ensures places { (m n : GateName) → place_of m ≡ place_of n → m ≡ n }
    ensures named { (text : List ℕ) (n : GateName) → gate_named text ≡ Some n ↔ gate_text n ≡ text }
{}

/// A text begins with at most one strict numeral, at most one number with a sign and at most one fixed-point number, and
/// what follows is then one text too. The same holds of the decimal texts of numbers and of lines of a word and a number.
pub fn fronts_are_read_one_way()
    ensures whole { (text ds es m l : List ℕ) → WholeFront text ds m → WholeFront text es l → (ds ≡ es) × (m ≡ l) }
    ensures int { (text : List ℕ) (y z : ℤ) (m l : List ℕ) → IntFront text y m → IntFront text z l → (y ≡ z) × (m ≡ l) }
    ensures fixed { (text : List ℕ) (y z : ℤ) (m l : List ℕ) → FixedFront text y m → FixedFront text z l → (y ≡ z) × (m ≡ l) }
    ensures number { (m n : ℕ) (xs ys : List ℕ) → m < 2 ^ 64 → n < 2 ^ 64 → EndsNumber xs → EndsNumber ys →
        decimal m ++ xs ≡ decimal n ++ ys → (m ≡ n) × (xs ≡ ys) }
    ensures line { (word : List ℕ) (m n : ℕ) (xs ys : List ℕ) → m < 2 ^ 64 → n < 2 ^ 64 →
        number_line word m ++ xs ≡ number_line word n ++ ys → (m ≡ n) × (xs ≡ ys) }
{}
