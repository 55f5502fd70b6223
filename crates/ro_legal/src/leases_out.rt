//! The leases that are out, the newest first.
ghost use Rattle.std.specs.Prelude.{◌≡◌, ◌<◌, ◌==◌, ◌∷◌, [], vec_len, vec_capacity, is_some, not, true};
ghost use Rattle.std.specs.List.{filter, find, list_any};
ghost use Rattle.ro_legal.specs.Core.{Job, is_lease, sharing_of};

use ro_journal::Lease;
use ro_settings::Settings;

/// Notes a lease; there is room for it.
pub fn note_lease(leases: &mut Vec<Lease>, lease: Lease)
    requires { vec_len leases.old < vec_capacity leases.old }
    ensures items { leases.new.items ≡ lease ∷ leases.old.items }
{
    if leases.is_empty() {
        leases.push_reserved(lease);
    } else {
        leases.insert(0, lease).unwrap();
    }
}

/// The lease that a driver holds.
pub fn lease_of(leases: &[Lease], driver: u32) -> Option<Lease>
    ensures { result ≡ find (λ lease. lease.driver == driver) leases.now }
{
    for lease in leases {
        if lease.driver == driver {
            return Some(*lease);
        }
    }
    None
}

/// Whether a driver holds one of the leases.
pub fn has_lease(leases: &[Lease], driver: u32) -> bool
    ensures { result ≡ list_any (λ lease. lease.driver == driver) leases.now }
{
    leases.iter().any(|lease| lease.driver == driver)
}

/// Forgets a lease.
pub fn forget_lease(leases: &mut Vec<Lease>, lease: Lease)
    ensures items { leases.new.items ≡ filter (λ other. not (is_lease lease other)) leases.old.items }
{
    if is_alone(leases.as_slice(), &lease) {
        leases.clear();
    } else {
        leases.retain(|other| is_another(other, &lease));
    }
}

// Whether there is no other lease than this one.
fn is_alone(leases: &[Lease], lease: &Lease) -> bool
    ensures { result ≡ true → filter (λ other. not (is_lease lease.now other)) leases.now ≡ [] }
{
    leases.len() == 1 && !is_another(&leases[0], lease)
}

fn is_another(lease: &Lease, gone: &Lease) -> bool
    ensures { result ≡ not (is_lease gone.now lease.now) }
{
    !(lease.driver == gone.driver && lease.replica == gone.replica && lease.thread == gone.thread)
}

/// Whether pages are lent in a run with these settings.
#[tactic(auto, unfolding(crate::specs::Core::sharing_of))]
pub fn lends_pages(settings: &Settings) -> bool
    ensures { (job : Job) → job.settings ≡ settings.now → result ≡ is_some (sharing_of job) }
{
    settings.drivers > 1
}
