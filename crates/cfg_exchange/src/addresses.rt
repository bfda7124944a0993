ghost use Rattle.std.specs.Prelude.{◌≡◌};
ghost use Rattle.cfg_exchange.specs.Addresses.{is_allowed};

use cfg_types::Address;

// 169.254.170.2, where the Amazon ECS agent answers.
const ECS_AGENT: u32 = 0xa9fe_aa02;

// 169.254.170.23 and fd00:ec2::23, where the Amazon EKS Pod Identity agent answers.
const EKS_AGENT: u32 = 0xa9fe_aa17;

const EKS_AGENT_V6: u128 = 0xfd00_0ec2_0000_0000_0000_0000_0000_0023;

/// Whether a container's credentials may be asked for at this address without HTTPS. Allowed are the
/// addresses of the machine itself, 127.0.0.0/8 and ::1, and those of the agents of Amazon ECS and EKS:
/// 169.254.170.2, 169.254.170.23 and fd00:ec2::23.
pub fn is_full_uri_ip_allowed(address: &Address) -> bool
    ensures { result ≡ is_allowed address.now }
{
    match address {
        Address::V4(number) => {
            *number / 0x0100_0000 == 127 || *number == ECS_AGENT || *number == EKS_AGENT
        }
        Address::V6(number) => *number == 1 || *number == EKS_AGENT_V6,
    }
}
