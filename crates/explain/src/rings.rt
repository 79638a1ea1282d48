// A ring of waiting, stop by stop. Two stops are `s` and `t`, as in sheet_lags.rt.
use crate::sheet_lags::Judging;
use crate::text::Counted;
use std::io;
use std::io::Write;

impl Judging<'_> {
    // Writes a stop of the ring, with its carrier and place.
    fn write_stop(&self, s: u16, out: &mut impl Write) -> io::Result<()> {
        write!(out, "        stop {s}")?;
        if let Some(stop) = self.site.records.stops.get(usize::from(s)) {
            write!(out, ", carrier {} at place {}", stop.carrier, stop.place)?;
        }
        writeln!(out)
    }

    // Writes the lag from a stop of the ring to the next, and answers its ticks.
    fn write_lag(&self, s: u16, t: u16, out: &mut impl Write) -> io::Result<i64> {
        let Some(lag) = self.lag_between(s, t) else {
            return Ok(0);
        };
        let ticks = lag.ticks();
        writeln!(out, "        {ticks:>+7}  {lag}")?;
        Ok(ticks)
    }

    // Writes the stops of a ring with the lag from each to the next, and answers the sum of the lags. A loop, since
    // each step writes, may fail, and adds to the sum.
    fn write_lags(&self, ring: &[u16], out: &mut impl Write) -> io::Result<i64> {
        let mut sum: i64 = 0;
        let nexts = ring.iter().skip(1).chain(ring.iter().take(1));
        for (stop, next) in ring.iter().zip(nexts) {
            self.write_stop(*stop, out)?;
            sum = sum.saturating_add(self.write_lag(*stop, *next, out)?);
        }
        Ok(sum)
    }

    // Writes the ring.
    pub(crate) fn write_ring(&self, ring: &[u16], out: &mut impl Write) -> io::Result<()> {
        let sum = self.write_lags(ring, out)?;
        match ring.first() {
            Some(stop) => writeln!(
                out,
                "        {sum:>+7}  in all, so stop {stop} would have to be reached {sum} ticks after itself"
            ),
            None => Ok(()),
        }
    }
}
