//! The word of each rule.
ghost use Rattle.std.specs.Prelude.{◌≡◌};
ghost use Rattle.tcs_terms.specs.Rules.{rule_text, rule_in};

use crate::setups::Rule;

impl Rule {
    /// The rule's word, as it is printed.
    pub fn word(self) -> &'static str
        ensures { result.now ≡ rule_text self }
    {
        match self {
            Rule::Serial => "serial",
            Rule::Snapshot => "snapshot",
            Rule::Commute => "commute",
        }
    }

    /// The rule that a word names.
    #[tactic(auto, unfolding(crate::specs::Rules::rule_in))]
    pub fn named(word: &[u8]) -> Option<Rule>
        ensures { result ≡ rule_in word.now }
    {
        if word == b"serial".as_slice() {
            Some(Rule::Serial)
        } else if word == b"snapshot".as_slice() {
            Some(Rule::Snapshot)
        } else if word == b"commute".as_slice() {
            Some(Rule::Commute)
        } else {
            None
        }
    }
}
