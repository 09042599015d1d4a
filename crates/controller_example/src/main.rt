//! The library at work: a controller over a kernel, commands applied one after another with every answer handled, and each
//! request that the kernel was asked logged as `ip rule` and `ip route` print it.
#![tactic(auto)]

mod log;

ghost use Rattle.std.specs.Prelude.{◌≡◌, []};
ghost use Rattle.net_control.specs.View.{IsKept};

use fwmark::Permission;
use kernel_model::Kernel;
use log::log_requests;
use net_control::{Controller, StartFault};
use net_names::Name;
use number_text::{append_bytes, write_decimal};
use policy_state::{Command, Way};
use prefixes::{Addr, Prefix};
use sim_kernel::SimKernel;
use std::alloc::{AllocError, Global};
use std::io::{self, Write};
use std::process::ExitCode;
use turn_text::Answer;
use uid_ranges::{Uid, UidRange};

/// Appends what became of a command.
fn write_answer(answer: Answer, out: &mut Vec<u8>) -> Result<(), AllocError> {
    match answer {
        Answer::Done => append_bytes(b"done\n", out),
        Answer::Refused { code } => {
            append_bytes(b"refused ", out)?;
            append_bytes(code.text().as_bytes(), out)?;
            append_bytes(b"\n", out)
        }
        // all that had been added was taken back, and everything is as it was before
        Answer::KernelRefused { request } => {
            append_bytes(b"undone: the kernel refused request ", out)?;
            write_decimal(request, out)?;
            append_bytes(b"\n", out)
        }
        // nothing is asked any more; packets go where the policy before or after this command says
        Answer::Halted { request } => {
            append_bytes(b"halted at request ", out)?;
            write_decimal(request, out)?;
            append_bytes(b"\n", out)
        }
    }
}

/// Applies a command, and logs what the kernel was asked for it and what became of it.
fn apply<K: Kernel>(
    controller: &mut Controller,
    kernel: &mut K,
    command: &Command,
    out: &mut Vec<u8>,
) -> Result<(), AllocError>
    requires { IsKept controller.old (K.seen kernel.old) }
    ensures { IsKept controller.new (K.seen kernel.new) }
{
    let before = kernel.entry_count();
    let answer = controller.apply(kernel, command)?;
    log_requests(controller.state(), kernel, before, out)?;
    write_answer(answer, out)
}

/// Applies the commands one after another.
fn apply_all<K: Kernel>(
    controller: &mut Controller,
    kernel: &mut K,
    commands: &[Command],
    out: &mut Vec<u8>,
) -> Result<(), AllocError>
    requires { IsKept controller.old (K.seen kernel.old) }
{
    for command in commands {
        apply(controller, kernel, command, out)?;
    }
    Ok(())
}

/// A Wi-Fi network comes. Its interface is asked for twice, since the kernel refuses something the first time.
fn evening(name: Name, prefix: Prefix) -> [Command; 6] {
    let net = 100;
    let permission = Permission::Nothing;
    let way = Way::Direct;
    [
        Command::LinkAdd { name, index: 2 },
        Command::CreatePhysical { net, permission },
        Command::InterfaceAdd { net, name },
        Command::InterfaceAdd { net, name },
        Command::RouteAdd {
            net,
            name,
            prefix,
            way,
        },
        Command::CreatePhysical { net, permission },
    ]
}

fn tell_fault(fault: StartFault, out: &mut Vec<u8>) -> Result<(), AllocError> {
    match fault {
        StartFault::Memory(fault) => Err(fault),
        StartFault::Refused { .. } | StartFault::Halted { .. } => append_bytes(b"no start\n", out),
    }
}

/// Starts a controller over the kernel, and applies the commands.
fn run<K: Kernel>(
    alloc: Global,
    kernel: &mut K,
    commands: &[Command],
    out: &mut Vec<u8>,
) -> Result<(), AllocError>
    requires { (K.seen kernel.old).journal ≡ [] }
{
    match Controller::start(alloc, kernel) {
        Ok(mut controller) => apply_all(&mut controller, kernel, commands, out),
        Err(fault) => tell_fault(fault, out),
    }
}

fn show(alloc: Global, out: &mut Vec<u8>) -> Result<(), AllocError> {
    let Some(name) = Name::from_bytes(b"wlan0") else {
        return Ok(());
    };
    let Some(prefix) = Prefix::new(Addr::V4(0), 0) else {
        return Ok(());
    };
    // the kernel refuses its ninth request
    let mut refuse = Vec::new(alloc);
    refuse.push(9)?;
    let mut kernel = SimKernel::new(alloc, refuse, Vec::new(alloc))?;
    run(alloc, &mut kernel, &evening(name, prefix), out)
}

fn main(rt: HostRuntime) -> ExitCode {
    let mut out = Vec::new(rt.alloc());
    let shown = show(rt.alloc(), &mut out);
    match shown {
        Err(AllocError) => ExitCode::from(6),
        Ok(()) => match io::writer(&rt).write_all(&out) {
            Ok(()) => ExitCode::SUCCESS,
            Err(_) => ExitCode::from(5),
        },
    }
}
