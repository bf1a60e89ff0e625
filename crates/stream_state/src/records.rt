//! Records of streams, found by their ids.

ghost use Rattle.std.specs.Prelude.{◌≡◌, IfOk, IfErr};
ghost use Rattle.stream_state.specs.Records.{IsRising, IsAt, IsGap, streams_in};
ghost use Rattle.stream_state.specs.Views.{highest_in};

use crate::states::State;

/// A stream that was opened, and its state.
#[derive(Clone, Copy, Debug, PartialEq, Eq)]
pub struct Record {
    pub id: u32,
    pub state: State,
}

/// The place of the record with this id, or the place at which it would stand.
pub fn place_of(records: &[Record], id: u32) -> Result<usize, usize>
    requires { IsRising records.now }
    ensures found { IfOk result (IsAt records.now id) }
    ensures absent { IfErr result (IsGap records.now id) }
{
    records.binary_search_by_key(&id, |record| record.id)
}

/// The highest id of the records, or 0: that of the last.
pub fn highest_id(records: &[Record]) -> u32
    requires { IsRising records.now }
    ensures { result ≡ highest_in (streams_in records.now) }
{
    let [.., last] = records else {
        return 0;
    };
    last.id
}
