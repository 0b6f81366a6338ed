// What the benchmarks of encoding and of recovery share.
#![tactic(auto)]

ghost use Rattle.shared_bench.specs.Encodes.{Encodes};

use codes::Code;
use parity::{Block, encode};

// Ten columns of data.
pub type Columns = [u8; 5120];

// Fills P and Q. It answers a `bool`, since C, for which it is, has no Result.
pub fn encode_ten<C: Code>(code: &C, columns: &Columns, p: &mut Block, q: &mut Block) -> bool
    ensures { Encodes (C.bits code.now) (C.period code.now) (C.map code.now) columns.now p.old q.old result p.new q.new }
{
    encode(code, 10, columns, p, q).is_ok()
}
