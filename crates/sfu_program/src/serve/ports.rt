// The ports of `serve`: bound in order, and released in order.
ghost use Rattle.std.specs.Prelude.{◌≡◌, ◌+◌, ◌<◌, ◌≤◌, ℕ, [], length, map, take, vec_len, IfErr, IfOk, OnErr, OnOk};
ghost use Rattle.std.specs.Vec.{vec_capacity};
ghost use Rattle.sfu_base.specs.Faults.{HasCause, Rose, raised};
ghost use Rattle.sfu_base.specs.Ports.{after_bind};
ghost use Rattle.sfu_serve.specs.Runs.{job_before};
ghost use Rattle.sfu_program.specs.ServePorts.{AreFresh, AreNamedFrom, IsFresh, NoFault, WasUnbound, SomeFault, after_backs, befores, role_of, seen_ports};
ghost use Rattle.sfu_program.specs.declared.serve.ports.Unbound.TheVariants.{PortFault, Starved};

use rtx_stream::Rtx;
use sfu_base::{Failed, Ports};
use sfu_script::{PortLine, PortRole};
use sfu_serve::{Ended, Job, Role};
use std::alloc::Global;

/// Why binding the ports failed.
#[derive(Clone, Copy, Debug)]
pub enum Unbound {
    /// Out of memory.
    Starved,
    /// A port wasn't bound.
    PortFault,
}

// Returns the role of the session that a port's line requests.
fn role(line: PortRole) -> Role
    ensures { result ≡ role_of line }
{
    match line {
        PortRole::Publisher { track, ssrc } => Role::Publisher { track, ssrc },
        PortRole::Subscriber { subscriber, ssrc } => Role::Subscriber { subscriber, ssrc },
        PortRole::Control => Role::Control,
        PortRole::Rtx {
            subscriber,
            ssrc,
            rtx_ssrc,
            payload_type,
        } => Role::Rtx {
            subscriber,
            ssrc,
            rtx: Rtx {
                ssrc: rtx_ssrc,
                payload_type,
            },
        },
    }
}

// Binds the port of a line, and returns the job of the port's session.
fn bind_one<P: Ports>(line: &PortLine, ports: &mut P) -> Result<Job<P::Port>, Failed>
    requires { P.bound ports.old < 64 }
    ensures fresh { IfOk result (λ job. IsFresh line.now (job_before job.role (P.Port.traffic job.link) (P.Port.faults job.link))) }
    ensures name { IfOk result (λ job. P.Port.name job.link ≡ P.bound ports.old) }
    ensures bound { P.bound ports.new ≡ after_bind result (P.bound ports.old) }
    ensures back_count { P.back_count ports.new ≡ P.back_count ports.old }
    ensures returned { P.returned ports.new ≡ P.returned ports.old }
    ensures cause { HasCause (P.faults ports.old) (P.faults ports.new) result }
{
    let link = ports.bind(line.local, line.peer)?;
    Ok(Job {
        role: role(line.role),
        link,
    })
}

// Binds the ports of lines in order, until one fails, and appends a job for each.
fn bind_each<P: Ports>(
    lines: &[PortLine],
    ports: &mut P,
    jobs: &mut Vec<Job<P::Port>>,
) -> Result<(), Failed>
    requires few { length lines.now ≤ 64 }
    requires capacity { length lines.now ≤ vec_capacity jobs.old }
    requires none { vec_len jobs.old ≡ 0 }
    requires unbound { P.bound ports.old ≡ 0 }
    ensures all { OnOk result (vec_len jobs.new ≡ length lines.now) }
    ensures failed { OnErr result (vec_len jobs.new < length lines.now) }
    ensures once { OnErr result (P.faults ports.new ≡ raised (P.faults ports.old)) }
    ensures kept { OnOk result (P.faults ports.new ≡ P.faults ports.old) }
    ensures never_falls { P.faults ports.old ≤ P.faults ports.new }
    ensures fresh { AreFresh (take (vec_len jobs.new) lines.now) (befores P.Port.traffic P.Port.faults jobs.new.items) }
    ensures names { AreNamedFrom P.Port.name 0 (map (λ job. job.link) jobs.new.items) }
    ensures bound { P.bound ports.new ≡ vec_len jobs.new }
    ensures back_count { P.back_count ports.new ≡ P.back_count ports.old }
    ensures returned { P.returned ports.new ≡ P.returned ports.old }
{
    for line in lines {
        let job = bind_one(line, ports)?;
        jobs.push_reserved(job);
    }
    Ok(())
}

// Releases the ports of jobs, in the order of the jobs.
fn release<P: Ports>(jobs: Vec<Job<P::Port>>, ports: &mut P)
    requires { P.back_count ports.old + vec_len jobs ≤ P.bound ports.old }
    ensures bound { P.bound ports.new ≡ P.bound ports.old }
    ensures back_count { P.back_count ports.new ≡ P.back_count ports.old + vec_len jobs }
    ensures returned { P.returned ports.new ≡ after_backs (map (λ job. job.link) jobs.items) (P.returned ports.old) }
    ensures calm { NoFault P.Port.faults (map (λ job. job.link) jobs.items) → P.faults ports.new ≡ P.faults ports.old }
    ensures never_falls { P.faults ports.old ≤ P.faults ports.new }
{
    for job in jobs {
        let Job { role: _, link } = job;
        ports.back(link);
    }
}

/// Releases the ports of sessions that ended, in the order of the sessions.
pub fn release_ended<P: Ports>(ended: Vec<Ended<P::Port>>, ports: &mut P)
    requires { P.back_count ports.old + vec_len ended ≤ P.bound ports.old }
    ensures bound { P.bound ports.new ≡ P.bound ports.old }
    ensures back_count { P.back_count ports.new ≡ P.back_count ports.old + vec_len ended }
    ensures returned { P.returned ports.new ≡ after_backs (map (λ e. e.link) ended.items) (P.returned ports.old) }
    ensures never_falls { P.faults ports.old ≤ P.faults ports.new }
    ensures calm { NoFault P.Port.faults (map (λ e. e.link) ended.items) → P.faults ports.new ≡ P.faults ports.old }
    ensures rose { SomeFault P.Port.faults (map (λ e. e.link) ended.items) → Rose (P.faults ports.old) (P.faults ports.new) }
{
    for session in ended {
        let Ended { end: _, link } = session;
        ports.back(link);
    }
}

/// Binds the port of each configuration line in order, and returns a job for each port. If binding a port fails, releases the ports that were bound
/// before it, in order.
#[tactic(auto, using(crate::proofs::ServeBacks::fresh_quiet))]
pub fn bind_all<P: Ports>(
    alloc: Global,
    lines: &[PortLine],
    ports: &mut P,
) -> Result<Vec<Job<P::Port>>, Unbound>
    requires few { length lines.now ≤ 64 }
    requires unbound { P.bound ports.old ≡ 0 }
    requires none_back { P.back_count ports.old ≡ 0 }
    ensures fresh { IfOk result (λ jobs. AreFresh lines.now (befores P.Port.traffic P.Port.faults jobs.items)) }
    ensures names { IfOk result (λ jobs. AreNamedFrom P.Port.name 0 (map (λ job. job.link) jobs.items)) }
    ensures bound { IfOk result (λ jobs. P.bound ports.new ≡ vec_len jobs) }
    ensures all { IfOk result (λ jobs. vec_len jobs ≡ length lines.now) }
    ensures none_came { OnOk result (P.back_count ports.new ≡ 0) }
    ensures returned { OnOk result (P.returned ports.new ≡ P.returned ports.old) }
    ensures kept { OnOk result (P.faults ports.new ≡ P.faults ports.old) }
    ensures never_falls { P.faults ports.old ≤ P.faults ports.new }
    ensures failed { IfErr result (λ why. why ≡ PortFault → WasUnbound P.Port.traffic P.Port.faults P.Port.name lines.now
        (seen_ports (P.bound ports.old) (P.back_count ports.old) (P.returned ports.old) (P.faults ports.old))
        (seen_ports (P.bound ports.new) (P.back_count ports.new) (P.returned ports.new) (P.faults ports.new))) }
    ensures starved { IfErr result (λ why. why ≡ Starved → ports.new ≡ ports.old) }
{
    let Ok(mut jobs) = Vec::with_capacity(alloc, lines.len()) else {
        return Err(Unbound::Starved);
    };
    if bind_each(lines, ports, &mut jobs).is_err() {
        release(jobs, ports);
        return Err(Unbound::PortFault);
    }
    Ok(jobs)
}
