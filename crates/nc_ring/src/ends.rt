//! New rings.
ghost use Rattle.std.specs.Prelude.{◌≡◌, IfOk};
ghost use Rattle.nc_ring.specs.Ends.{new_tx, new_rx};

use crate::rule::{Ends, Line, ROOM, Ways};
use crate::rx::RingRx;
use crate::tx::RingTx;
use crate::view::Route;
use nc_types::NoMemory;
use std::alloc::Global;
use std::marker::Brand;
use std::sync::Arc;

/// The ends of a ring whose way the call picks.
fn pair_of<H: Drop, W: Ways>(
    alloc: Global,
    route: Route,
) -> Result<(RingTx<H>, RingRx<H>), NoMemory>
    requires { route ≡ W.route }
    ensures { IfOk result (λ ends. (ends.0 ≡ new_tx route) × (ends.1 ≡ new_rx route)) }
{
    let (line, mut writer) = Line::<H>::ruled(alloc, ROOM)?;
    let reader = line.another::<Ends<W>>(&mut writer);
    let line = Arc::new(alloc, line)?;
    let tx = RingTx {
        line: Arc::try_clone(&line)?,
        pass: writer,
        route,
        full: 0,
    };
    let rx = RingRx {
        line,
        pass: reader,
        route,
        nones: 0,
    };
    Ok((tx, rx))
}

/// The two ends of a new ring, which is empty.
pub fn pair<H: Drop>(alloc: Global, route: Route) -> Result<(RingTx<H>, RingRx<H>), NoMemory>
    ensures { IfOk result (λ ends. (ends.0 ≡ new_tx route) × (ends.1 ≡ new_rx route)) }
{
    pair_of::<H, Brand>(alloc, route)
}
