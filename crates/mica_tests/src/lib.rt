//! Tests of what moves bytes over this machine's sockets and reads its clock, of which no clause tells what passes; and of the front that owns its
//! partitions, which no program has. What servers and commands answer are rows of data, of the programs `rows` and `server_rows`.
#![tactic(auto)]

#[cfg(test)]
mod clock;
#[cfg(test)]
mod hall;
#[cfg(test)]
mod link;
#[cfg(test)]
mod port;
#[cfg(test)]
mod solo;
#[cfg(test)]
mod tcp;
#[cfg(test)]
mod tcp_ends;
#[cfg(test)]
mod udp;
