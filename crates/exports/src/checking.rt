// The three yes/no checks of a set under plain names: 0 for no, n + 1 for yes over n options.
ghost use Rattle.bdd.specs.Array.{runs};
ghost use Rattle.std.specs.Prelude.{◌≡◌};
ghost use Rattle.checks.specs.Checked.{checked_order};
ghost use Rattle.set_checks.specs.Checked.{checked_tidy, checked_signing};
ghost use Rattle.exports.specs.Numbered.{numbered_check};

use bdd::RuleSet;

// Yes over n options, or no.
fn yes(answer: Option<u16>) -> u32
    ensures { result ≡ numbered_check answer }
{
    match answer {
        Some(n) => n as u32 + 1,
        None => 0,
    }
}

// Whether three runs are an ordered set.
pub fn jp_check_ordered(variable: &[u16], low: &[u32], high: &[u32]) -> u32
    ensures { result ≡ numbered_check (checked_order (runs variable.now low.now high.now)) }
{
    let set = RuleSet {
        variable,
        low,
        high,
    };
    yes(checks::check_ordered(&set))
}

// Whether three runs are a tidy set.
pub fn jp_check_tidy(variable: &[u16], low: &[u32], high: &[u32]) -> u32
    ensures { result ≡ numbered_check (checked_tidy (runs variable.now low.now high.now)) }
{
    let set = RuleSet {
        variable,
        low,
        high,
    };
    yes(set_checks::check_tidy(&set))
}

// Whether three runs are a set in signing order.
pub fn jp_check_signing(variable: &[u16], low: &[u32], high: &[u32]) -> u32
    ensures { result ≡ numbered_check (checked_signing (runs variable.now low.now high.now)) }
{
    let set = RuleSet {
        variable,
        low,
        high,
    };
    yes(set_checks::check_signing(&set))
}
