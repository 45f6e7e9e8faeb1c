//! Each text that `tr_gen` draws is a script, whatever the number that it is drawn from: none of its lines
//! has a fault, and it isn't too long. So a function that reads such a text knows that it isn't refused.
#![tactic(auto)]

ghost use Rattle.std.specs.Prelude.{◌≡◌, ℕ, None, length};
ghost use Rattle.tr_gen.specs.Scripts as gen;
ghost use Rattle.tr_grammar.specs.Texts.{lines_of};
ghost use Rattle.tr_grammar.specs.Scripts.{refusal_of};

/// How many lines each drawn script has. Also tells that each is a script.
#[tactic(auto, using(crate::proofs::DrawnLemmas::line_count, crate::proofs::DrawnLemmas::is_a_script))]
pub fn lines() -> u32
    ensures count { (number : ℕ) → length (lines_of (gen.script_of_number number)) ≡ result }
    ensures script { (number : ℕ) → refusal_of (gen.script_of_number number) ≡ None }
{
    2039
}
