//! Device control strings (DCS), in parts.
ghost use Rattle.std.specs.Prelude.{◌≡◌, IfOk};
ghost use Rattle.escape_stream.specs.StreamActionView.{device_value};

use std::alloc::{AllocError, Global};

/// What opens a device control string (ECMA-48 8.3.27): the bytes 20h to 3Fh after `ESC P`, and the final byte, 40h to
/// 7Eh.
#[derive(Debug, PartialEq, Eq, Drop)]
pub struct EnterDeviceControlMode {
    pub header: Vec<u8>,
    pub byte: u8,
}

impl EnterDeviceControlMode {
    /// A copy.
    pub fn try_clone(&self) -> Result<Self, AllocError>
        ensures header { IfOk result (λ copy. copy.header.items ≡ self.now.header.items) }
        ensures byte { IfOk result (λ copy. copy.byte ≡ self.now.byte) }
    {
        Ok(EnterDeviceControlMode {
            header: self.header.clone()?,
            byte: self.byte,
        })
    }
}

/// A part of a device control string: its opening, one byte of its data, its end.
#[derive(Debug, PartialEq, Eq, Drop)]
pub enum DeviceControlMode {
    Enter(Box<EnterDeviceControlMode>),
    Data(u8),
    Exit,
}

impl DeviceControlMode {
    /// A copy.
    pub fn try_clone(&self, alloc: Global) -> Result<Self, AllocError>
        ensures { IfOk result (λ copy. device_value copy ≡ device_value self.now) }
    {
        match self {
            DeviceControlMode::Enter(opening) => {
                let copy = opening.try_clone()?;
                Ok(DeviceControlMode::Enter(Box::new(alloc, copy)?))
            }
            DeviceControlMode::Data(byte) => Ok(DeviceControlMode::Data(*byte)),
            DeviceControlMode::Exit => Ok(DeviceControlMode::Exit),
        }
    }
}
