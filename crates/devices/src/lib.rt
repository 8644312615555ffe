// The RCID and MCID of a device's request, where an IOMMU stands before the controller, and why they are refused.
#![tactic(auto)]

ghost use Rattle.std.specs.Prelude.{◌≡◌};
ghost use Rattle.access.specs.Refusals.{number_of};
ghost use Rattle.devices.specs.Devices.{mode_of, identifiers_in, out_of_range};

use access::Refusal;
use fields::{DcTa, IommuQosid};

// The identifiers that a request goes by.
#[derive(Drop)]
pub struct Identifiers {
    pub rcid: u64,
    pub mcid: u64,
}

// What stands before the controller: an IOMMU that is off, one that passes requests on bare, or one with a device directory.
#[derive(Clone, Copy)]
pub enum IommuMode {
    Off,
    Bare,
    Directory,
}

impl From<u64> for IommuMode {
    ghost from_gives = { λ number mode. mode ≡ mode_of number };

    // 0 is off and 1 is bare; any other number is a device directory.
    #[tactic(auto, unfolding(crate::specs::Devices::mode_of))]
    fn from(number: u64) -> IommuMode
        ensures { result ≡ mode_of number }
    {
        if number == 0 {
            IommuMode::Off
        } else if number == 1 {
            IommuMode::Bare
        } else {
            IommuMode::Directory
        }
    }
}

// Those that a device's word names: the device context's where there is a directory, else the register's.
pub fn identifiers_in(mode: u64, word: u64) -> Identifiers
    ensures { result ≡ identifiers_in mode word }
{
    match IommuMode::from(mode) {
        IommuMode::Off | IommuMode::Bare => {
            let qosid = IommuQosid::unpack(word);
            Identifiers {
                rcid: qosid.rcid,
                mcid: qosid.mcid,
            }
        }
        IommuMode::Directory => {
            let ta = DcTa::unpack(word);
            Identifiers {
                rcid: ta.rcid,
                mcid: ta.mcid,
            }
        }
    }
}

// Why the request is refused where one of them is out of range.
pub fn out_of_range(mode: u64) -> Refusal
    ensures { number_of result ≡ out_of_range mode }
{
    match IommuMode::from(mode) {
        IommuMode::Off | IommuMode::Bare => Refusal::Identifier,
        IommuMode::Directory => Refusal::DeviceContext,
    }
}
