//! The program `mesh_node`: one router on a socket of this machine. It reads the script of the
//! router from standard input, writes what comes of each line to standard output, and exchanges
//! datagrams with its peers. The top call, over any source, sink and link, has the whole contract;
//! `main` makes the adapters over the standard streams and the socket, and ends with the status of
//! the answer.
#![tactic(auto)]

use mesh_io::{Source, StdSink, StdSource};
use mesh_shell::{texts_behind_name, words_of};
use mesh_udp::{NodeStatus, UdpLink, node_run, port_of};
use std::io;
use std::io::Write;
use std::process::ExitCode;

// Runs the router over standard input and output and a socket. Words that name no port are reported
// first, whatever the streams are. If one of the two streams is closed, that is reported before a
// socket is opened: the socket would take the stream's place, and whoever sends datagrams would
// write the script.
fn status_of(rt: &HostRuntime) -> Result<NodeStatus, NodeStatus> {
    let words = words_of(rt)?;
    let texts = texts_behind_name(rt.alloc(), &words)?;
    if port_of(&texts).is_none() {
        return Err(NodeStatus::Usage);
    }
    let mut input = StdSource::new(rt.stdin());
    if input.take(&mut []).is_err() {
        return Err(NodeStatus::ReadFault);
    }
    let mut writer = io::writer(rt);
    if writer.write(&[]).is_err() {
        return Err(NodeStatus::WriteFault);
    }
    let mut out = StdSink::new(writer);
    let mut link = UdpLink::new(rt);
    Ok(node_run(rt.alloc(), &texts, &mut input, &mut out, &mut link))
}

fn main(rt: HostRuntime) -> ExitCode {
    let status = match status_of(&rt) {
        Ok(status) => status,
        Err(status) => status,
    };
    ExitCode::from(status.code())
}
