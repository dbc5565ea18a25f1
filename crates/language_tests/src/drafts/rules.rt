// A line, and the canonical text of its rule.
pub const RULES: &str = "\
add 5 set 3 pass log logamount 10 6 from not 10.1.2.3/8,me 80,1000-2000 to any not domain in recv em* tcpflags syn,!ack|00005 set 3 allow log logamount 10 tcp from not 10.0.0.0/8,me 80,1000-2000 to any not 53 in recv em* tcpflags syn,!ack
add 1 allow ip from any to any|00001 allow ip from any to any
add 2 accept all from any to any|00002 allow ip from any to any
add 3 permit 0 from any to any|00003 allow ip from any to any
add 4 drop tcp from any to any|00004 deny tcp from any to any
add 65535 deny udp from any to any|65535 deny udp from any to any
add 6 reset 6 from any to any|00006 reset tcp from any to any
add 7 reject 17 from any to any|00007 unreach host udp from any to any
add 8 unreach 0 icmp from any to any|00008 unreach net icmp from any to any
add 9 unreach precedence-cutoff 1 from any to any|00009 unreach precedence-cutoff icmp from any to any
add 10 unreach 16 2 from any to any|00010 unreach 16 2 from any to any
add 11 unreach needfrag 255 from any to any|00011 unreach needfrag 255 from any to any
add 12 count ip from any to any|00012 count ip from any to any
add 13 skipto 0000000014 ip from any to any|00013 skipto 14 ip from any to any
add 14 call 65535 ip from any to any|00014 call 65535 ip from any to any
add 15 return ip from any to any|00015 return ip from any to any
add 16 check-state|00016 check-state
add 17 set 31 check-state # all|00017 set 31 check-state
add 18 set 00 allow ip from any to any|00018 allow ip from any to any
add 19 set 007 allow ip from any to any|00019 set 7 allow ip from any to any
add 20 allow log ip from any to any|00020 allow log ip from any to any
add 21 allow log logamount 0 ip from any to any|00021 allow log ip from any to any
add 22 deny log logamount 4294967295 ip from any to any|00022 deny log logamount 4294967295 ip from any to any
add 23 allow ip from me to not me|00023 allow ip from me to not me
add 24 allow ip from 010.001.000.255 to 192.0.2.1/32|00024 allow ip from 10.1.0.255 to 192.0.2.1
add 25 allow ip from 0.0.0.0/0 to 255.255.255.255|00025 allow ip from 0.0.0.0/0 to 255.255.255.255
add 26 allow ip from 10.9.8.7/008 to 10.9.8.7/31|00026 allow ip from 10.0.0.0/8 to 10.9.8.6/31
add 27 allow ip from table(a) to table(B-2_c.d,0)|00027 allow ip from table(a) to table(B-2_c.d,0)
add 28 allow ip from any,me,1.2.3.4,table(t,007),table(u) to any|00028 allow ip from any,me,1.2.3.4,table(t,7),table(u) to any
add 29 allow tcp from any 0 to any 65535|00029 allow tcp from any 0 to any 65535
add 30 allow tcp from any 00080 to any ftp|00030 allow tcp from any 80 to any 21
add 31 allow tcp from any ssh-telnet to any smtp,domain|00031 allow tcp from any 22-23 to any 25,53
add 32 allow udp from any bootps,bootpc,tftp to any http,pop3|00032 allow udp from any 67,68,69 to any 80,110
add 33 allow udp from any ntp to any imap-snmp|00033 allow udp from any 123 to any 143-161
add 34 allow tcp from any not https to any not imaps,pop3s|00034 allow tcp from any not 443 to any not 993,995
add 35 allow tcp from any 5-5 to any 1-65535|00035 allow tcp from any 5 to any 1-65535
add 36 allow ip from any to any in|00036 allow ip from any to any in
add 37 allow ip from any to any not out|00037 allow ip from any to any not out
add 38 allow tcp from any to any established|00038 allow tcp from any to any established
add 39 allow tcp from any to any not setup frag|00039 allow tcp from any to any not setup frag
add 40 allow ip from any to any recv any xmit em0|00040 allow ip from any to any recv any xmit em0
add 41 allow ip from any to any via em* not recv any*|00041 allow ip from any to any via em* not recv any*
add 42 allow ip from any to any via fifteen_bytes.0|00042 allow ip from any to any via fifteen_bytes.0
add 43 allow tcp from any to any tcpflags urg,!ack,fin|00043 allow tcp from any to any tcpflags fin,!ack,urg
add 44 allow tcp from any to any tcpflags !psh,!psh,rst|00044 allow tcp from any to any tcpflags rst,!psh
add 45 allow icmp from any to any icmptypes 11,0,8,0|00045 allow icmp from any to any icmptypes 0,8,11
add 46 allow icmp from any to any not icmptypes 31|00046 allow icmp from any to any not icmptypes 31
add 47 allow ip from any to any ipoptions !ts,ssrr|00047 allow ip from any to any ipoptions ssrr,!ts
add 48 allow ip from any to any ipoptions rr,lsrr|00048 allow ip from any to any ipoptions lsrr,rr
add 49 allow ip from any to any lookup src-ip a lookup dst-ip b|00049 allow ip from any to any lookup src-ip a lookup dst-ip b
add 50 allow ip from any to any lookup src-port a not lookup dst-port b|00050 allow ip from any to any lookup src-port a not lookup dst-port b
add 51 allow tcp from any to any keep-state|00051 allow tcp from any to any keep-state
add 52 allow tcp from any to any setup keep-state in|00052 allow tcp from any to any setup keep-state in
add 53 allow tcp from any to any limit src-addr 2|00053 allow tcp from any to any limit src-addr 2
add 54 allow tcp from any to any in limit src-port 65535 out|00054 allow tcp from any to any in limit src-port 65535 out
add 55 allow tcp from any to any in out limit dst-addr 001|00055 allow tcp from any to any in out limit dst-addr 1
add 56 allow tcp from any to any limit dst-port 10 frag|00056 allow tcp from any to any limit dst-port 10 frag
add allow ip from any to any|00000 allow ip from any to any
add 0 set 5 deny ip from any to any|00000 set 5 deny ip from any to any
add 57 allow tcp from any to any 22 setup limit src-addr 2|00057 allow tcp from any to any 22 setup limit src-addr 2
add 58 allow 6 from not me not 22 to not any not 1-2,3 not in|00058 allow tcp from not me not 22 to not any not 1-2,3 not in
add 59 check-state :default|00059 check-state
add 60 check-state :any|00060 check-state :any
add 61 set 2 check-state :web # one|00061 set 2 check-state :web
add 62 check-state :ANY|00062 check-state :ANY
add 63 check-state :aaaaaaaaaaaaaaaaaaaaaaaaaaaaaaaaaaaaaaaaaaaaaaaaaaaaaaaaaaaaaaa|00063 check-state :aaaaaaaaaaaaaaaaaaaaaaaaaaaaaaaaaaaaaaaaaaaaaaaaaaaaaaaaaaaaaaa
add 64 allow udp from any to any keep-state :dns|00064 allow udp from any to any keep-state :dns
add 65 allow udp from any to any in keep-state :default out|00065 allow udp from any to any in keep-state out
add 66 allow tcp from any to any limit src-addr 02 :a-b_c.9 in|00066 allow tcp from any to any limit src-addr 2 :a-b_c.9 in
add 67 allow tcp from any to any limit dst-port 1 :default|00067 allow tcp from any to any limit dst-port 1
add 68 allow tcp from any to any keep-state :Any|00068 allow tcp from any to any keep-state :Any
add 69 allow ip4 from any to any|00069 allow ip4 from any to any
add 70 allow ipv4 from any to any|00070 allow ip4 from any to any
add 71 allow ip6 from 10.0.0.0/8 to any|00071 allow ip6 from 10.0.0.0/8 to any
add 72 deny ipv6 from any to me|00072 deny ip6 from any to me
add 73 allow ipv6-icmp from any to any icmp6types 129,128,128|00073 allow 58 from any to any icmp6types 128,129
add 74 allow 58 from any to any not icmp6types 255,0,127|00074 allow 58 from any to any not icmp6types 0,127,255
add 75 allow icmp from any to any icmp6types 003 icmptypes 3|00075 allow icmp from any to any icmp6types 3 icmptypes 3
add 76 allow ip from not 10.0.0.1,::1,table(t),2001:DB8::/32,any to not ::|00076 allow ip from not 10.0.0.1,::1,table(t),2001:db8::/32,any to not ::
add 77 allow tcp from fe80::1/10 80 to 2001:db8::2 ssh|00077 allow tcp from fe80::/10 80 to 2001:db8::2 22
";
