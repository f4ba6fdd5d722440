// The numbers in the words of a command line.
ghost use Rattle.std.specs.Prelude.{◌≡◌, ◌≤◌, ℕ, MatchOption};
ghost use Rattle.std.specs.Fmt.{decimal};
ghost use Rattle.std.specs.Option.{option_map};
ghost use Rattle.sygus_words.specs.Numbers.{LimitIs};

/// The number from 1 to `greatest` that the text is the decimal spelling of, without sign and leading zeros.
pub fn number(text: &str, greatest: u32) -> Option<u32>
    ensures { MatchOption result ((n : ℕ) → text.now ≡ decimal n → 1 ≤ n → n ≤ greatest → ⊥)
        (λ n. (text.now ≡ decimal n) × (1 ≤ n) × (n ≤ greatest)) }
{
    let [first, ..] = text.as_bytes() else {
        return None;
    };
    if *first <= b'0' {
        return None;
    }
    let Ok(number) = text.parse::<u32>() else {
        return None;
    };
    if number <= greatest {
        Some(number)
    } else {
        None
    }
}

/// The value of an option whose text may be there, from 1 to `greatest`, or its default.
pub fn limit_of(text: Option<&str>, default: u32, greatest: u32) -> Option<u32>
    ensures { MatchOption result ((n : ℕ) → LimitIs default greatest (option_map (λ t. t.now) text.entry) n → ⊥)
        (λ n. LimitIs default greatest (option_map (λ t. t.now) text.entry) n) }
{
    match text {
        Some(text) => number(text, greatest),
        None => Some(default),
    }
}
