//! Tests of HTTP exchanges and of the server that data can't show.
//! Readers and writers in pieces and failing, stores that fail, requests that are cut at each byte,
//! statuses that are told, and connections and a server on the loopback.
//! Both ends of these are in one thread: clients connect and send before they are accepted.
#![tactic(auto)]

#[cfg(test)]
mod clients;
#[cfg(test)]
mod connections;
#[cfg(test)]
mod cuts;
#[cfg(test)]
mod exchanges;
#[cfg(test)]
mod loopback;
#[cfg(test)]
mod paces;
#[cfg(test)]
mod port;
#[cfg(test)]
mod reads;
#[cfg(test)]
mod sent_again;
#[cfg(test)]
mod statuses;
#[cfg(test)]
mod store_faults;
mod visitors;
#[cfg(test)]
mod writes;
