// The numbers of an address: its octets, the groups of IPv6, and the runs of zeros among them.
#![tactic(auto)]

ghost use Rattle.std.specs.Prelude.{◌≡◌, length};
ghost use Rattle.ip_groups.specs.Groups.{groups_of};
ghost use Rattle.ip_groups.specs.Runs.{RunsOf};

// The zeros that stand first, and the longest run of zeros with its place.
#[derive(Clone, Copy)]
pub struct ZeroRuns {
    pub first: usize,
    pub longest: usize,
    pub at: usize,
}

// The four numbers of an IPv4 address.
pub fn octets_of(bytes: &[u8]) -> [u32; 4]
    requires { length bytes.now ≡ 4 }
    ensures { result ≡ bytes.now }
{
    let mut octets = [0u32; 4];
    for (i, byte) in bytes.iter().enumerate() {
        octets[i] = *byte as u32;
    }
    octets
}

// The eight groups of an IPv6 address.
pub fn groups_of(bytes: &[u8]) -> [u32; 8]
    requires { length bytes.now ≡ 16 }
    ensures { result ≡ groups_of bytes.now }
{
    let mut groups = [0u32; 8];
    for i in 0..8 {
        let high = bytes[2 * i] as u32;
        let low = bytes[2 * i + 1] as u32;
        groups[i] = high * 256 + low;
    }
    groups
}

// One pass over the groups, from the last to the first, by place: the place of a run is what is sought.
pub fn zero_runs(groups: &[u32]) -> ZeroRuns
    ensures { RunsOf groups.now result.first result.longest result.at }
{
    let mut first: usize = 0;
    let mut longest: usize = 0;
    let mut at = groups.len();
    let mut i = groups.len();
    while 0 < i {
        i -= 1;
        if groups[i] == 0 {
            first += 1;
        } else {
            first = 0;
        }
        if longest <= first {
            longest = first;
            at = i;
        }
    }
    ZeroRuns { first, longest, at }
}
