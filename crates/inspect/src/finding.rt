ghost use Rattle.std.specs.Prelude.{◌≡◌};
ghost use Rattle.inspect.specs.Found.{found};

use table_format::fault::TableFault;
use table_format::kind::Kind;
use tables::table::Table;

// How large a table is.
#[derive(Clone, Copy, PartialEq, Debug)]
pub struct Extent {
    pub states: usize,
    pub width: u8,
}

// What checking found of one table.
pub type Finding = Result<Extent, TableFault>;

pub fn finding_of(kind: Kind, bytes: &[u8]) -> Finding
    ensures { result ≡ found kind bytes.now }
{
    let table = Table::new(kind, bytes)?;
    Ok(Extent {
        states: table.states(),
        width: table.width(),
    })
}
