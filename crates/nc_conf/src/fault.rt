//! Faults of a text, and which comes first.
ghost use Rattle.std.specs.Prelude.{◌≡◌};
ghost use Rattle.nc_conf.specs.Faults.{fault_if};
ghost use Rattle.nc_conf.specs.First.{is_before, earlier, first_with};

/// The number of the rule that a text breaks, and the place where it does.
#[derive(Clone, Copy, Debug, PartialEq, Eq)]
pub struct Fault {
    pub at: usize,
    pub rule: u8,
}

fn is_before(f: Fault, g: Fault) -> bool
    ensures { result ≡ is_before f g }
{
    f.at < g.at || (f.at == g.at && f.rule < g.rule)
}

/// The first of the faults so far and one more.
fn earlier(first: Option<Fault>, fault: Fault) -> Option<Fault>
    ensures { result ≡ earlier first fault }
{
    match first {
        None => Some(fault),
        Some(f) => Some(if is_before(fault, f) { fault } else { f }),
    }
}

/// The first of the faults so far and, if a rule is broken, its fault.
pub fn first_if(first: Option<Fault>, broken: bool, rule: u8, at: usize) -> Option<Fault>
    ensures { result ≡ first_with first (fault_if broken rule at) }
{
    if broken {
        earlier(first, Fault { at, rule })
    } else {
        first
    }
}
