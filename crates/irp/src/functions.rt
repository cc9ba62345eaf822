//! The numbers of major and minor functions.

ghost use Rattle.std.specs.Prelude.{◌≡◌};
ghost use Rattle.irp.specs.Functions.{major_code_of, minor_code_of};

use crate::{MajorFunction, MinorFunction};

impl MajorFunction {
    /// The number of the major function.
    pub fn code(self) -> u8
        ensures { result ≡ major_code_of self }
    {
        let function = self;
        macro_rules! codes {
            ($($name:ident = $code:literal,)*) => {
                match function {
                    $(MajorFunction::$name => $code,)*
                }
            };
        }
        codes! {
            Create = 0x00,
            Close = 0x02,
            Read = 0x03,
            Write = 0x04,
            FlushBuffers = 0x09,
            InternalDeviceControl = 0x0F,
            Cleanup = 0x12,
            Pnp = 0x1B,
        }
    }
}

impl MinorFunction {
    /// The number of the minor function of plug and play.
    pub fn code(self) -> u8
        ensures { result ≡ minor_code_of self }
    {
        let function = self;
        macro_rules! codes {
            ($($name:ident = $code:literal,)*) => {
                match function {
                    $(MinorFunction::$name => $code,)*
                }
            };
        }
        codes! {
            QueryRemove = 0x01,
            Remove = 0x02,
            CancelRemove = 0x03,
            SurpriseRemoval = 0x17,
        }
    }
}
