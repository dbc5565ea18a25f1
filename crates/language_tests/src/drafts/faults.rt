// A fault's kind, its column and the line.
pub const FAULTS: &str = "\
UnknownWord 9 add 100 alow ip from any to any
UnknownWord 5 add alllow ip from any to any
UnknownWord 5 add ALLOW ip from any to any
UnknownWord 11 add allow ipv5 from any to any
UnknownWord 11 add allow tcp6 from any to any
UnknownWord 11 add allow logamount 5 ip from any to any
UnknownWord 15 add allow log sctp from any to any
UnknownWord 14 add allow ip form any to any
UnknownWord 14 add allow ip to any from any
UnknownWord 26 add allow ip from any 80 any
UnknownWord 27 add allow tcp from any 80 from any
UnknownWord 30 add allow ip from any to any http2
UnknownWord 30 add allow ip from any to any inn
UnknownWord 33 add allow ip from any to any in estabished
UnknownWord 34 add allow ip from any to any not not in
UnknownWord 34 add allow ip from any to any not sshd
UnknownWord 30 add allow ip from any to any ,80
UnknownWord 37 add allow ip from any to any lookup src-mac t
UnknownWord 36 add allow ip from any to any limit src 2
UnknownWord 9 add set x allow ip from any to any
UnknownWord 11 add 5 set one allow ip from any to any
UnknownWord 13 add unreach nets ip from any to any
UnknownWord 13 add unreach all ip from any to any
UnknownWord 5 add check-states
UnknownWord 30 add allow ip from any to any keepstate
MissingWord 4 add
MissingWord 8 add 100
MissingWord 8 add 100  # no more
MissingWord 8 add set
MissingWord 10 add set 5
MissingWord 10 add allow
MissingWord 14 add allow log
MissingWord 24 add allow log logamount
MissingWord 13 add allow ip
MissingWord 18 add allow ip from
MissingWord 22 add allow ip from not
MissingWord 22 add allow ip from any
MissingWord 26 add allow ip from any not
MissingWord 25 add allow ip from any 80
MissingWord 25 add allow ip from any to
MissingWord 33 add allow ip from any to any not
MissingWord 34 add allow ip from any to any recv
MissingWord 43 add allow ip from any to any lookup src-ip
MissingWord 35 add allow ip from any to any limit
MissingWord 44 add allow ip from any to any limit src-addr
MissingWord 11 add skipto
MissingWord 12 add unreach
ExtraWord 17 add check-state x
ExtraWord 19 add 5 check-state log
ExtraWord 23 add set 3 check-state ip
ExtraWord 17 add check-state from any to any
ExtraWord 25 add 5 set 3 check-state check-state # twice
BadNumber 5 add 5x allow ip from any to any
BadNumber 5 add 12345678901 allow ip from any to any
BadNumber 5 add 0x10 allow ip from any to any
BadNumber 12 add skipto x ip from any to any
BadNumber 10 add call -1 ip from any to any
BadNumber 9 add set 5a allow ip from any to any
BadNumber 13 add unreach 1,2 ip from any to any
BadNumber 25 add allow log logamount many ip from any to any
BadNumber 11 add allow 6tcp from any to any
BadNumber 19 add allow ip from table(a, to any
BadNumber 19 add allow ip from table(a,x) to any
BadNumber 42 add allow icmp from any to any icmptypes 8,
BadNumber 42 add allow icmp from any to any icmptypes ,8
BadNumber 42 add allow icmp from any to any icmptypes echo
BadNumber 46 add allow tcp from any to any limit src-addr x
NumberRange 5 add 65536 allow ip from any to any
NumberRange 5 add 9999999999 allow ip from any to any
NumberRange 9 add set 32 allow ip from any to any
NumberRange 12 add skipto 0 ip from any to any
NumberRange 10 add call 65536 ip from any to any
NumberRange 13 add unreach 256 ip from any to any
NumberRange 25 add allow log logamount 4294967296 ip from any to any
NumberRange 11 add allow 256 from any to any
NumberRange 19 add allow ip from table(a,4294967296) to any
NumberRange 42 add allow icmp from any to any icmptypes 32
NumberRange 42 add allow icmp from any to any icmptypes 0,40,x
NumberRange 46 add allow tcp from any to any limit dst-port 0
NumberRange 46 add allow tcp from any to any limit dst-port 65536
BadAddress 19 add allow ip from here to any
BadAddress 23 add allow ip from not to any
BadAddress 23 add allow ip from not not any to any
BadAddress 19 add allow ip from 10.0.0 to any
BadAddress 19 add allow ip from 10.0.0.256 to any
BadAddress 19 add allow ip from 10.0.0.1.2 to any
BadAddress 19 add allow ip from 10.0.0.0001 to any
BadAddress 19 add allow ip from 1.2.3/33 to any
BadAddress 19 add allow ip from any/8 to any
BadAddress 19 add allow ip from any, to any
BadAddress 19 add allow ip from ,any to any
BadAddress 19 add allow ip from any,,me to any
BadAddress 19 add allow ip from table(a to any
BadAddress 19 add allow ip from table(a)x to any
BadAddress 19 add allow ip from table(a,1,2) to any
BadAddress 19 add allow ip from table(a,1 to any
BadAddress 19 add allow ip from tables(a) to any
BadAddress 26 add allow ip from any to me,you
BadAddress 26 add allow ip from any to 80
BadPrefix 19 add allow ip from 10.0.0.0/33 to any
BadPrefix 19 add allow ip from 10.0.0.0/ to any
BadPrefix 19 add allow ip from 10.0.0.0/8/8 to any
BadPrefix 26 add allow ip from any to me,10.0.0.0/x
BadPrefix 30 add allow ip from any to not 10.0.0.0/-1
BadPrefix 19 add allow ip from 10.0.0.0/12345678901 to any
BadPort 24 add allow tcp from any 65536 to any
BadPort 24 add allow tcp from any web to any
BadPort 24 add allow tcp from any 80, to any
BadPort 24 add allow tcp from any 80-70x to any
BadPort 24 add allow tcp from any 70000-5 to any
BadPort 24 add allow tcp from any 80- to any
BadPort 24 add allow tcp from any -80 to any
BadPort 28 add allow tcp from any not to any
BadPort 31 add allow tcp from any to any 80-90-100
BadPort 31 add allow tcp from any to any http,web
BadPort 35 add allow tcp from any to any not 80,x
BadRange 24 add allow tcp from any 90-80 to any
BadRange 31 add allow tcp from any to any 80,https-http
BadRange 35 add allow tcp from any to any not 1-0
BadRange 28 add allow tcp from any not 65535-1 to any
BadRange 24 add allow tcp from any 3-2,x to any
BadFlag 40 add allow tcp from any to any tcpflags sin
BadFlag 40 add allow tcp from any to any tcpflags syn,!syn
BadFlag 40 add allow tcp from any to any tcpflags syn,
BadFlag 40 add allow tcp from any to any tcpflags !
BadFlag 40 add allow tcp from any to any tcpflags !!syn
BadFlag 40 add allow ip from any to any ipoptions rr,ts,!rr
BadFlag 40 add allow ip from any to any ipoptions ttl
BadName 19 add allow ip from table() to any
BadName 19 add allow ip from table(a!) to any
BadName 26 add allow ip from any to me,table(,1)
BadName 35 add allow ip from any to any recv *
BadName 35 add allow ip from any to any recv em0!
BadName 38 add allow ip from any to any not via sixteen_bytes_no
BadName 35 add allow ip from any to any xmit sixteen_bytes_no*
BadName 44 add allow ip from any to any lookup src-ip a/b
SecondState 42 add allow tcp from any to any keep-state keep-state
SecondState 45 add allow tcp from any to any keep-state in limit src-addr 2
SecondState 48 add allow tcp from any to any limit src-addr 2 keep-state
SecondState 48 add allow tcp from any to any limit src-addr 2 limit x 0
SecondState 46 add allow tcp from any to any keep-state out keep-state not
Misplaced 33 add allow ip from any to any in not keep-state
Misplaced 30 add allow ip from any to any not limit src-addr 2
Misplaced 41 add allow ip from any to any keep-state not keep-state
Misplaced 30 add allow ip from any to any not keep-state foo
Misplaced 47 add allow ip from any to any limit dst-port 1 not limit
UnknownWord 11 add allow IP6 from any to any
UnknownWord 11 add allow ipv6-icmp6 from any to any
UnknownWord 5 add check-state:x
UnknownWord 33 add allow ip from any to any in :a
UnknownWord 41 add allow ip from any to any keep-state x:y
UnknownWord 30 add allow ip from any to any keep-state:x
MissingWord 41 add allow ip6 from any to any icmp6types
ExtraWord 20 add check-state :a :b
ExtraWord 22 add check-state :any x
ExtraWord 30 add 7 set 1 check-state :any :any
BadNumber 42 add allow ip6 from any to any icmp6types 128,
BadNumber 42 add allow ip6 from any to any icmp6types echo
BadNumber 46 add allow tcp from any to any limit src-addr :a
NumberRange 42 add allow ip6 from any to any icmp6types 256
NumberRange 42 add allow ip6 from any to any icmp6types 0,1000,x
BadAddress 20 add allow ip6 from : to any
BadAddress 20 add allow ip6 from ::: to any
BadAddress 20 add allow ip6 from 1: to any
BadAddress 20 add allow ip6 from 1:2:3:4:5:6:7 to any
BadAddress 20 add allow ip6 from 1:2:3:4:5:6:7:8:9 to any
BadAddress 20 add allow ip6 from 1:2:3:4:5:6:7: to any
BadAddress 20 add allow ip6 from 1::2::3 to any
BadAddress 20 add allow ip6 from ::1:: to any
BadAddress 20 add allow ip6 from 12345:: to any
BadAddress 20 add allow ip6 from ::00001 to any
BadAddress 20 add allow ip6 from 1:2:3:4:5:6:7:8:: to any
BadAddress 20 add allow ip6 from ::1:2:3:4:5:6:7:8 to any
BadAddress 20 add allow ip6 from 1:2:3:4::5:6:7:8 to any
BadAddress 20 add allow ip6 from :1:: to any
BadAddress 20 add allow ip6 from 1::2: to any
BadAddress 20 add allow ip6 from ::g to any
BadAddress 20 add allow ip6 from ::ffff:10.0.0.1 to any
BadAddress 20 add allow ip6 from 10.0.0.1/2:3 to any
BadAddress 20 add allow ip6 from ::1%em0 to any
BadAddress 20 add allow ip6 from any: to any
BadAddress 20 add allow ip6 from [::1] to any
BadAddress 20 add allow ip6 from 1:2:3:4:5:6:7:8:/64 to any
BadAddress 20 add allow ip6 from /::1 to any
BadAddress 20 add allow ip6 from 10.0.0.1:80 to any
BadAddress 20 add allow ip6 from ::1,,::2 to any
BadPrefix 27 add allow ip6 from any to ::/129
BadPrefix 27 add allow ip6 from any to ::1/
BadPrefix 27 add allow ip6 from any to ::1/x
BadPrefix 27 add allow ip6 from any to ::1/8/8
BadPrefix 27 add allow ip6 from any to ::/-1
BadPrefix 27 add allow ip6 from any to 2001:db8::/4294967296
BadName 19 add allow ip from table(a:b) to any
BadName 17 add check-state :
BadName 17 add check-state :a! :any
BadName 17 add check-state ::any
BadName 17 add check-state :nnnnnnnnnnnnnnnnnnnnnnnnnnnnnnnnnnnnnnnnnnnnnnnnnnnnnnnnnnnnnnnn
BadName 42 add allow udp from any to any keep-state :
BadName 42 add allow udp from any to any keep-state :a/b in
BadName 48 add allow udp from any to any limit dst-addr 1 :a,b
SecondState 45 add allow udp from any to any keep-state :a keep-state :b
SecondState 51 add allow udp from any to any limit src-addr 1 :a limit x
Misplaced 42 add allow udp from any to any keep-state :any
Misplaced 48 add allow udp from any to any limit src-addr 2 :any
Misplaced 42 add allow udp from any to any keep-state :any keep-state
Misplaced 31 add allow udp from any to any not keep-state :any
";
