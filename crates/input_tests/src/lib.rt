//! Tests of what is read from outside, by the public calls of pcap_read, packet_headers, ip6_headers, command_words and
//! system_files.
#![tactic(auto)]

#[cfg(test)]
mod captures;
#[cfg(test)]
mod files;
#[cfg(test)]
mod frames;
#[cfg(test)]
mod packets;
#[cfg(test)]
mod packets6;
#[cfg(test)]
mod words;
