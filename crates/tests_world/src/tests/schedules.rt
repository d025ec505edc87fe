//! Schedules of store calls: the rows and requests that they leave, which no printed line shows.

/// Transcripts. The requests that changed the store stand below `? effects`, all rows below `? rows`.
pub(crate) const TRANSCRIPTS: &[&str] = &[
    "\
# advances and deletes
begin 1 write - 0:5 => Began(1)
run 1 => Answered(1, Plain(Wrote(1)))
? rows
  1 begins Plain(Write(None, Record { epoch: 0, payload: 5 }))
  1 puts root/test/00000000000000000001.val Create b\"0:5\"
  1 is answered Plain(Wrote(1))
begin 1 write 1 0:6 => Began(2)
run 2 => Answered(2, Plain(Wrote(2)))
begin 1 write 2 0:7 => Began(3)
run 3 => Answered(3, Plain(Wrote(3)))
begin 1 write 3 0:8 => Began(4)
run 4 => Answered(4, Plain(Wrote(4)))
begin 1 write 4 0:9 => Began(5)
run 5 => Answered(5, Plain(Wrote(5)))
# Two advances find no boundary file, and the greater one comes first.
begin 1 advance 1 => Began(6)
look 6, look 6, serve 6 => Went(6)
begin 2 advance 2 => Began(7)
run 7 => Answered(7, Plain(Done))
# The lesser one's put is not taken; it gets the file again.
run 6 => Answered(6, Plain(Done))
# It knows the boundary 2, and is to put over that; but the lesser of two advances comes first.
begin 1 advance 4 => Began(8)
look 8 => Went(8)
begin 2 advance 3 => Began(9)
run 9 => Answered(9, Plain(Done))
# Its put is not taken; it gets the file, and puts over that.
run 8 => Answered(8, Plain(Done))
# An advance to where the boundary is, or below it, puts nothing.
begin 1 advance 4 => Began(10)
run 10 => Answered(10, Plain(Done))
begin 3 advance 4 => Began(11)
run 11 => Answered(11, Plain(Done))
begin 3 advance 0 => Began(12)
run 12 => Answered(12, Plain(Done))
# Deletes out of order, two of them of version 3, of which the second removes nothing.
begin 2 delete 3 => Began(13)
look 13 => Went(13)
look 13 => Went(13)
begin 1 delete 3 => Began(14)
run 14 => Answered(14, Plain(Done))
run 13 => Answered(13, Plain(Done))
begin 1 delete 1 => Began(15)
run 15 => Answered(15, Plain(Done))
begin 2 delete 2 => Began(16)
run 16 => Answered(16, Plain(Done))
? effects
  1 puts root/test/00000000000000000001.val Create b\"0:5\"
  2 puts root/test/00000000000000000002.val Create b\"0:6\"
  3 puts root/test/00000000000000000003.val Create b\"0:7\"
  4 puts root/test/00000000000000000004.val Create b\"0:8\"
  5 puts root/test/00000000000000000005.val Create b\"0:9\"
  7 puts root/gc/test.boundary Create b\"2\"
  9 puts root/gc/test.boundary Update(Token(6)) b\"3\"
  8 puts root/gc/test.boundary Update(Token(7)) b\"4\"
  14 removes root/test/00000000000000000003.val
  15 removes root/test/00000000000000000001.val
  16 removes root/test/00000000000000000002.val
",
    "\
# readers, and a late write
begin 2 write - 0:5 => Began(1)
begin 1 write - 0:7 => Began(2)
run 2 => Answered(2, Plain(Wrote(1)))
# The reader lists version 1.
begin 2 read => Began(3)
look 3, serve 3, look 3 => Went(3)
begin 1 write 1 0:8 => Began(4)
run 4 => Answered(4, Plain(Wrote(2)))
begin 1 advance 1 => Began(5)
run 5 => Answered(5, Plain(Done))
begin 1 delete 1 => Began(6)
run 6 => Answered(6, Plain(Done))
# It finds no version 1, and lists again.
run 3 => Answered(3, Plain(Read(Some((2, Record { epoch: 0, payload: 8 })))))
# The first write creates version 1 again, and its check finds the boundary there.
run 1 => Answered(1, Plain(Refused(5)))
# Another reader lists version 2 and gets it.
begin 3 read => Began(7)
look 7, serve 7, look 7, serve 7, look 7, look 7, look 7 => Went(7)
begin 1 write 2 0:9 => Began(8)
run 8 => Answered(8, Plain(Wrote(3)))
begin 1 advance 2 => Began(9)
run 9 => Answered(9, Plain(Done))
# Its check finds the boundary there, and it begins again.
run 7 => Answered(7, Plain(Read(Some((3, Record { epoch: 0, payload: 9 })))))
begin 2 read => Began(10)
run 10 => Answered(10, Plain(Read(Some((3, Record { epoch: 0, payload: 9 })))))
? effects
  2 puts root/test/00000000000000000001.val Create b\"0:7\"
  4 puts root/test/00000000000000000002.val Create b\"0:8\"
  5 puts root/gc/test.boundary Create b\"1\"
  6 removes root/test/00000000000000000001.val
  1 puts root/test/00000000000000000001.val Create b\"0:5\"
  8 puts root/test/00000000000000000003.val Create b\"0:9\"
  9 puts root/gc/test.boundary Update(Token(3)) b\"2\"
",
    "\
# requests that land late
begin 1 write_unchecked - 0:7 => Began(1)
fail 1 loose => Answered(1, Plain(Refused(2)))
begin 2 write_unchecked - 0:8 => Began(2)
fail 2 after => Answered(2, Plain(Refused(2)))
# Version 1 stands, and was removed by none.
land 1 => Landed(1, false)
crash 1 => Crashed(1)
? effects
  2 puts root/test/00000000000000000001.val Create b\"0:8\"
",
];
