// The timetable of a sheet that passes, as a table by carrier.
ghost use Rattle.std.specs.Prelude.{◌≡◌, ◌≤◌, [], All, Contains, MatchOption};
ghost use Rattle.lane_yard.specs.Meaning.{lanes_of};
ghost use Rattle.explain.specs.Departures.{Departs};
ghost use Rattle.explain.specs.Found.{Finds};

use crate::site::Site;
use sheet::records::Stop;
use std::io;
use std::io::Write;
use yard::Yard;

// A sheet in its yard, and the arrivals at its stops.
#[derive(Drop)]
pub(crate) struct Timetable<'a> {
    pub site: Site<'a>,
    pub arrivals: &'a [u32],
}

impl Timetable<'_> {
    // The tick at which a carrier departs from stop `s` to stop `t`: its arrival there less the travel time.
    fn departure(&self, s: u16, t: usize) -> Option<u32>
        ensures { Finds (Departs (lanes_of self.now.site.yard.now) self.now.site.records.stops self.now.arrivals.now s t) result }
    {
        let stops = self.site.records.stops;
        let from = stops.get(usize::from(s))?.place;
        let to = stops.get(t)?.place;
        let time = self.site.yard.travel_time(from, to)?;
        self.arrivals.get(t)?.checked_sub(u32::from(time))
    }

    // The highest arrival.
    fn highest(&self) -> Option<u32>
        ensures { MatchOption result (self.now.arrivals.now ≡ []) (λ tick. Contains self.now.arrivals.now tick × All (λ arrival. arrival ≤ tick) self.now.arrivals.now) }
    {
        self.arrivals.iter().copied().max()
    }

    // Writes the row of stop `s`: the carrier if this is its first stop, the stop, the place, the arrival, and the
    // departure, or that the carrier stays.
    fn write_row(&self, s: u16, stop: &Stop, out: &mut impl Write) -> io::Result<()> {
        match stop.previous {
            None => write!(out, "        {:>7}", stop.carrier)?,
            Some(_) => write!(out, "        {:>7}", "")?,
        }
        write!(out, "  {s:>4}  {:>5}", stop.place)?;
        if let Some(arrival) = self.arrivals.get(usize::from(s)) {
            write!(out, "  {arrival:>8}")?;
        }
        let Some(next) = self.site.records.stop_after(s) else {
            return writeln!(out, "  {:>9}", "stays");
        };
        if let Some(tick) = self.departure(s, next) {
            write!(out, "  {tick:>9}")?;
        }
        writeln!(out)
    }

    // Writes the rows of the stops of a carrier. Stops are zipped with numbers of the type that they are known by.
    fn write_route(&self, carrier: u8, out: &mut impl Write) -> io::Result<()> {
        let stops = (0..=u16::MAX).zip(self.site.records.stops);
        for (s, stop) in stops.filter(|(_, stop)| stop.carrier == carrier) {
            self.write_row(s, stop, out)?;
        }
        Ok(())
    }

    // Writes that the sheet passes, the highest arrival, and the rows of the stops, by carrier.
    pub(crate) fn write(&self, out: &mut impl Write) -> io::Result<()> {
        let Some(tick) = self.highest() else {
            return writeln!(out, "PASSED, and there are no carriers");
        };
        writeln!(out, "PASSED, highest arrival at tick {tick}")?;
        writeln!(out, "        carrier  stop  place   arrival  departure")?;
        for (carrier, _) in (0..=u8::MAX).zip(self.site.records.carriers) {
            self.write_route(carrier, out)?;
        }
        Ok(())
    }
}
