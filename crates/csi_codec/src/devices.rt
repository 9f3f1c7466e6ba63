//! Requests to the terminal itself: DECSTR, DA and DSR 5.
ghost use Rattle.std.specs.Prelude.{◌≡◌, Some};
ghost use Rattle.csi_codec.specs.Devices.{device_reading, device_spelling};
ghost use Rattle.csi_codec.specs.Parameters.{sequence_text, spelled_text};

use crate::parameters::CsiParam;
use crate::spelling::{ControlSequence, put_final, put_number, write_parameters};
use crate::text::SequenceText;
use std::fmt;

/// A request to the terminal itself.
#[derive(Clone, Copy, Debug, PartialEq, Eq)]
pub enum Device {
    /// DECSTR (CSI ! p): resets modes and attributes.
    SoftReset,
    /// DA (CSI c): requests the primary device attributes.
    RequestPrimaryDeviceAttributes,
    /// DSR 5 (CSI 5 n): requests a report of the terminal's status.
    StatusReport,
}

impl fmt::Display for Device {
    ghost output = { λ device. Some (spelled_text (device_spelling device)) };

    fn fmt<W: fmt::Write>(&self, f: &mut fmt::Formatter<W>) -> fmt::Result {
        write_parameters(self, f)
    }
}

impl ControlSequence for Device {
    ghost spelling = { device_spelling };

    #[tactic(auto, unfolding(crate::specs::Devices::device_spelling))]
    #[inline(never)]
    fn put_text(&self, text: &mut SequenceText) {
        match *self {
            Device::SoftReset => put_soft_reset(text),
            Device::RequestPrimaryDeviceAttributes => put_final(b'c', text),
            Device::StatusReport => put_number(5, b'n', text),
        }
    }
}

#[tactic(auto, unfolding(crate::specs::Devices::device_spelling))]
fn put_soft_reset(text: &mut SequenceText)
    ensures { text.new ≡ sequence_text (device_spelling Device.SoftReset) }
{
    let mut built = SequenceText::opened();
    built.push_sign(b'!');
    built.push_sign(b'p');
    *text = built;
}

/// The request that a whole list before a final byte encodes, if there is one.
#[tactic(auto, unfolding(crate::specs::Devices::device_reading))]
pub(crate) fn device_reading(params: &[CsiParam], control: char) -> Option<Device>
    ensures { result ≡ device_reading control params.now }
{
    match (control, params) {
        ('p', [CsiParam::P(b'!')]) => Some(Device::SoftReset),
        ('c', [] | [CsiParam::Integer(0)]) => Some(Device::RequestPrimaryDeviceAttributes),
        ('n', [CsiParam::Integer(5)]) => Some(Device::StatusReport),
        _ => None,
    }
}
