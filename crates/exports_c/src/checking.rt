// The three yes/no checks of a set under plain names: 0 for no, n + 1 for yes over n options.
ghost use Rattle.bdd.specs.Array.{runs};
ghost use Rattle.std.specs.Prelude.{◌≡◌};
ghost use Rattle.checks.specs.Checked.{checked_order};
ghost use Rattle.set_checks.specs.Checked.{checked_tidy, checked_signing};
ghost use Rattle.exports.specs.Numbered.{numbered_check};

// Whether three runs are an ordered set.
#[unsafe(no_mangle)]
pub extern "C" fn jp_check_ordered(variable: &[u16], low: &[u32], high: &[u32]) -> u32
    ensures { result ≡ numbered_check (checked_order (runs variable.now low.now high.now)) }
{
    exports::checking::jp_check_ordered(variable, low, high)
}

// Whether three runs are a tidy set.
#[unsafe(no_mangle)]
pub extern "C" fn jp_check_tidy(variable: &[u16], low: &[u32], high: &[u32]) -> u32
    ensures { result ≡ numbered_check (checked_tidy (runs variable.now low.now high.now)) }
{
    exports::checking::jp_check_tidy(variable, low, high)
}

// Whether three runs are a set in signing order.
#[unsafe(no_mangle)]
pub extern "C" fn jp_check_signing(variable: &[u16], low: &[u32], high: &[u32]) -> u32
    ensures { result ≡ numbered_check (checked_signing (runs variable.now low.now high.now)) }
{
    exports::checking::jp_check_signing(variable, low, high)
}
