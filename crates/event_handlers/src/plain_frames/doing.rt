//! What is done behind the judgement of a frame.

ghost use Rattle.std.specs.Prelude.{◌≡◌, List};
ghost use Rattle.model.specs.SettingValues.{Setting, smallest_value, last_value, values_of, header_table_size};
ghost use Rattle.event_handlers.specs.plain_frames.Kept.{limited};

use header_blocks::Encoder;
use settings::Change;

/// Notes the limits of the header table that settings name: the smallest and the last stand for all
/// (RFC 7541, section 4.2).
pub(crate) fn note_limits(encoder: &mut Encoder, change: Change)
    ensures { (settings : List Setting) → change.smallest ≡ smallest_value header_table_size settings → change.last ≡ last_value header_table_size settings
        → encoder.new ≡ limited (values_of header_table_size settings) encoder.old }
{
    let Some(smallest) = change.smallest else {
        return;
    };
    encoder.peer_limit(smallest);
    encoder.peer_limit(change.last.unwrap_or(smallest));
}
