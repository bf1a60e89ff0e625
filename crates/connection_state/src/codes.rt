//! Error codes (RFC 9113, section 7).

ghost use Rattle.std.specs.Prelude.{◌≡◌, option_map};
ghost use Rattle.model.specs.ErrorTable.{fault_of};
ghost use Rattle.stream_state.specs.Views.{verdict_in};
ghost use Rattle.connection_state.specs.Judgement.{fault_told};
ghost use Rattle.model.specs.Payloads.{code_of_payload};
ghost use Rattle.model.specs.SettingValues.{code_of_fault};
ghost use Rattle.frames.specs.Parsed.{fault_of as payload_fault_of};
ghost use Rattle.settings.specs.Views.{fault_of as setting_fault_of};
ghost use Rattle.connection_state.specs.Joined.{code_of_join};

use crate::answers::FrameError;
use frames::FrameFault;
use header_blocks::JoinFault;
use protocol::error_codes::{
    ENHANCE_YOUR_CALM, FLOW_CONTROL_ERROR, FRAME_SIZE_ERROR, PROTOCOL_ERROR,
};
use settings::SettingFault;
use stream_state::Verdict;

/// The code of a frame that may not come next (RFC 9113, section 4.3).
pub fn join_code(fault: JoinFault) -> u32
    ensures { result ≡ code_of_join fault }
{
    match fault {
        JoinFault::Outside | JoinFault::Between => PROTOCOL_ERROR,
        JoinFault::TooLong => ENHANCE_YOUR_CALM,
    }
}

/// The code of a payload's fault (RFC 9113, sections 4.2, 6.1 and 6.2).
pub fn payload_code(fault: FrameFault) -> u32
    ensures { result ≡ code_of_payload (payload_fault_of fault) }
{
    match fault {
        FrameFault::Size => FRAME_SIZE_ERROR,
        FrameFault::Protocol => PROTOCOL_ERROR,
    }
}

/// The code of a setting's fault (RFC 9113, sections 6.5 and 6.5.2).
pub fn setting_code(fault: SettingFault) -> u32
    ensures { result ≡ code_of_fault (setting_fault_of fault) }
{
    match fault {
        SettingFault::Size => FRAME_SIZE_ERROR,
        SettingFault::Push | SettingFault::FrameSize => PROTOCOL_ERROR,
        SettingFault::Window => FLOW_CONTROL_ERROR,
    }
}

/// The fault of a frame by the state of its stream, if it has one (RFC 9113, section 5.1).
pub fn fault_of(verdict: Verdict) -> Option<FrameError>
    ensures { option_map fault_told result ≡ fault_of (verdict_in verdict) }
{
    match verdict {
        Verdict::Pass | Verdict::Open => None,
        Verdict::Discard => Some(FrameError::Discarded),
        Verdict::Stream(code) => Some(FrameError::Stream(code)),
        Verdict::Connection(code) => Some(FrameError::Connection(code)),
    }
}
