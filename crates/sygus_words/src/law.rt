// The law of readings.
ghost use Rattle.std.specs.Prelude.{ℕ, List, ◌≡◌};
ghost use Rattle.sygus_words.specs.CommandLine.{IsReading};
ghost use Rattle.sygus_words.specs.declared.settings.Settings.{Settings};

/// Words have one reading: all settings that they give are the same, in mode, limits, proofs and name of the file.
pub fn words_have_one_reading()
    ensures { (words : List (List ℕ)) (one other : Settings) →
        IsReading words one → IsReading words other → one ≡ other }
{}
