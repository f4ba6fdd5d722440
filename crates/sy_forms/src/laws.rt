// Laws of what is read: it fits.
ghost use Rattle.sy_forms.specs.Laws.{WholeTermsFit, RulesFit, ConstantRulesGiveConstants};

/// A whole term that is read has the sort that was asked for, also where more is declared later.
pub fn whole_terms_fit()
    ensures { WholeTermsFit }
{}

/// A rule that is read has its nonterminal's sort.
pub fn rules_fit()
    ensures { RulesFit }
{}

/// A rule that is written as a constant gives constants alone.
pub fn constant_rules_give_constants()
    ensures { ConstantRulesGiveConstants }
{}
