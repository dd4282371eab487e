// The effect of call 21: asked for 0 it is off, asked for 1 it isn't.
ghost use Rattle.model.specs.Calls.{scheduling};
ghost use Rattle.model.specs.Effects.{scheduling_effect};
ghost use Rattle.model.specs.Before.{Rows};
ghost use Rattle.table.specs.Orderly.{Meets};
ghost use Rattle.kernel.specs.Allowed.{Allowed};

use model::requests::Request;
use model::tables::Table;
use table::storing;

pub fn scheduling(t: Table, q: Request) -> Table
    requires { (rows : Rows) × Allowed scheduling q t rows }
    ensures { Meets t (scheduling_effect q) result }
{
    storing::with_off(t, (1 - q.a) as u8)
}
