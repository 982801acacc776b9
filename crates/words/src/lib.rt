// Masks: words whose bits are places. The laws are in specs/, for every number of bits; the functions are those of `Word`, at 32 and at 64.
#![tactic(auto)]

ghost use Rattle.std.specs.Prelude.{◌≡◌, refl, ℕ, ◌+◌, ◌-◌, ◌*◌, ◌/◌, ◌%◌, ◌^◌, ◌<◌, ◌≤◌, eqb};
ghost use Rattle.std.specs.Int.Bits.{bit_and, bit_or, bit_xor};
ghost use Rattle.std.specs.Int.Count.{count_leading_zeros};
ghost use Rattle.words.specs.Word.{bit};
ghost use Rattle.words.specs.Mask as Mask;
ghost use Rattle.words.specs.Mask.{range_mask, Top};

use std::ops::{BitAnd, BitOr, BitXor, Shl, Shr};

// A word: a place is a bit's number.
pub trait Word: Copy
    + PartialEq
    + BitAnd<Self, Output = Self>
    + BitOr<Self, Output = Self>
    + BitXor<Self, Output = Self>
    + Shl<u32, Output = Self>
    + Shr<u32, Output = Self> {
    // How many places there are.
    const PLACES: u8;

    // No place, the place 0 alone, and every place.
    const NONE: Self;

    const LOWEST: Self;

    const ALL: Self;

    ghost PLACES: { ℕ };

    ghost NONE: { Self };

    ghost LOWEST: { Self };

    ghost ALL: { Self };

    // The number that a word is.
    ghost number: { Self → ℕ };

    fn leading_zeros(self) -> u32
        ensures zeros { result ≡ count_leading_zeros PLACES (number self) }
        ensures fits { number self < 2 ^ PLACES };

    ghost none_law: { number NONE ≡ 0 };

    ghost lowest_law: { number LOWEST ≡ 1 };

    ghost all_law: { number ALL ≡ 2 ^ PLACES - 1 };

    // Words are equal when they are one number.
    ghost eq_law: { (a b : Self) → Self.eq a b ≡ eqb (number a) (number b) };

    // The operators on bits may always be used, a shift below the number of places.
    ghost can_bitand_law: { (a b : Self) → Self.can_bitand a b };

    ghost bitand_law: { (a b r : Self) → Self.bitand_gives a b r → number r ≡ bit_and (number a) (number b) };

    ghost can_bitor_law: { (a b : Self) → Self.can_bitor a b };

    ghost bitor_law: { (a b r : Self) → Self.bitor_gives a b r → number r ≡ bit_or (number a) (number b) };

    ghost can_bitxor_law: { (a b : Self) → Self.can_bitxor a b };

    ghost bitxor_law: { (a b r : Self) → Self.bitxor_gives a b r → number r ≡ bit_xor (number a) (number b) };

    ghost can_shl_law: { (a : Self) (k : ℕ) → k < PLACES → Self.can_shl a k };

    ghost shl_law: { (a : Self) (k : ℕ) (r : Self) → Self.shl_gives a k r → number r ≡ (number a * 2 ^ k) % 2 ^ PLACES };

    ghost can_shr_law: { (a : Self) (k : ℕ) → k < PLACES → Self.can_shr a k };

    ghost shr_law: { (a : Self) (k : ℕ) (r : Self) → Self.shr_gives a k r → number r ≡ number a / 2 ^ k };

    // The place v alone.
    final fn one(v: u8) -> Self
        requires { v < PLACES }
        ensures { number result ≡ 2 ^ v }
    {
        Self::LOWEST << u32::from(v)
    }

    // Whether v is a place of the word.
    final fn has(self, v: u8) -> bool
        requires { v < PLACES }
        ensures { result ≡ bit (number self) v }
    {
        (self >> u32::from(v)) & Self::LOWEST == Self::LOWEST
    }

    // The places that are not places of o.
    final fn without(self, o: Self) -> Self
        ensures { number result ≡ Mask.without (number self) (number o) }
    {
        self ^ (self & o)
    }

    // Whether each place is one of b.
    final fn inside(self, b: Self) -> bool
        ensures { result ≡ Mask.inside (number self) (number b) }
    {
        self & b == self
    }

    // The word with the place v put to b, for any v: past the last place nothing changes.
    final fn place(self, v: u8, b: bool) -> Self
        ensures { number result ≡ Mask.placed PLACES (number self) v b }
    {
        if v < Self::PLACES {
            put(self, v, b)
        } else {
            self
        }
    }

    // Whether the bits in the mask are exactly the values.
    final fn agrees(self, mask: Self, values: Self) -> bool
        ensures { result ≡ Mask.agree (number mask) (number values) (number self) }
    {
        self & mask == values
    }

    // The c places from b on.
    final fn range_mask(b: u8, c: u8) -> Self
        requires { b + c ≤ PLACES }
        ensures { number result ≡ range_mask b c }
    {
        if c == 0 {
            return Self::NONE;
        }
        (Self::ALL >> u32::from(Self::PLACES - c)) << u32::from(b)
    }

    // The highest place.
    final fn highest(self) -> u8
        requires { 0 < number self }
        ensures { Top (number self) result × (result < PLACES) }
    {
        let zeros = self.leading_zeros();
        (u32::from(Self::PLACES) - 1 - zeros) as u8
    }
}

// w with the place v put to b.
fn put<W: Word>(w: W, v: u8, b: bool) -> W
    requires { v < W.PLACES }
    ensures { W.number result ≡ Mask.put (W.number w) v b }
{
    let p = W::one(v);
    if b { w | p } else { w.without(p) }
}

impl Word for u32 {
    const PLACES: u8 = 32;

    const NONE: u32 = 0;

    const LOWEST: u32 = 1;

    const ALL: u32 = u32::MAX;

    ghost PLACES = { 32 };

    ghost NONE = { 0 };

    ghost LOWEST = { 1 };

    ghost ALL = { 2 ^ 32 - 1 };

    ghost number = { λ x. x };

    fn leading_zeros(self) -> u32 {
        u32::leading_zeros(self)
    }

    ghost none_law = { refl };

    ghost lowest_law = { refl };

    ghost all_law = { refl };

    ghost eq_law = { λ a b. refl };

    ghost can_bitand_law = { λ a b. tt };

    ghost bitand_law = { λ a b r h. h };

    ghost can_bitor_law = { λ a b. tt };

    ghost bitor_law = { λ a b r h. h };

    ghost can_bitxor_law = { λ a b. tt };

    ghost bitxor_law = { λ a b r h. h };

    ghost can_shl_law = { λ a k h. h };

    ghost shl_law = { λ a k r h. h };

    ghost can_shr_law = { λ a k h. h };

    ghost shr_law = { λ a k r h. h };
}

impl Word for u64 {
    const PLACES: u8 = 64;

    const NONE: u64 = 0;

    const LOWEST: u64 = 1;

    const ALL: u64 = u64::MAX;

    ghost PLACES = { 64 };

    ghost NONE = { 0 };

    ghost LOWEST = { 1 };

    ghost ALL = { 2 ^ 64 - 1 };

    ghost number = { λ x. x };

    fn leading_zeros(self) -> u32 {
        u64::leading_zeros(self)
    }

    ghost none_law = { refl };

    ghost lowest_law = { refl };

    ghost all_law = { refl };

    ghost eq_law = { λ a b. refl };

    ghost can_bitand_law = { λ a b. tt };

    ghost bitand_law = { λ a b r h. h };

    ghost can_bitor_law = { λ a b. tt };

    ghost bitor_law = { λ a b r h. h };

    ghost can_bitxor_law = { λ a b. tt };

    ghost bitxor_law = { λ a b r h. h };

    ghost can_shl_law = { λ a k h. h };

    ghost shl_law = { λ a k r h. h };

    ghost can_shr_law = { λ a k h. h };

    ghost shr_law = { λ a k r h. h };
}
